// A line of the table. By `io`: std's printing would rest on one more function of the C library, and end the table at a line that can't be written.

// Standard output.
const STDOUT_FILENO: i32 = 1;

// A name, and numbers in decimal, with a space before each.
pub fn line(name: &str, numbers: &[usize]) {
    io::write_all(STDOUT_FILENO, name.as_bytes());
    for n in numbers {
        io::write_all(STDOUT_FILENO, b" ");
        io::print_decimal(STDOUT_FILENO, *n as u64);
    }
    io::write_all(STDOUT_FILENO, b"\n");
}
