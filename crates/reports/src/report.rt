// A line of the report. It is written by `io`: std's printing would put a handle and a Result into every function of five crates. Names are bytes, as `io` takes
// them, and as a text of cases is cut by its marks.

// Where a report is written: standard output.
pub const STDOUT_FILENO: i32 = 1;

// The bytes in lower hexadecimal.
pub fn print_bytes(bytes: &[u8]) {
    for b in bytes {
        io::print_hex(STDOUT_FILENO, u64::from(*b), 2);
    }
}

fn print_values(got: &[u8], expected: &[u8]) {
    print_bytes(got);
    io::write_all(STDOUT_FILENO, b" ");
    print_bytes(expected);
    io::write_all(STDOUT_FILENO, b"\n");
}

// The name and `ok`, or the name and `differs`, which the two values are printed behind.
pub fn verdict(name: &[u8], same: bool) {
    io::write_all(STDOUT_FILENO, name);
    if same {
        io::write_all(STDOUT_FILENO, b" ok\n");
    } else {
        io::write_all(STDOUT_FILENO, b" differs ");
    }
}

// The name and `ok`, or the name, `differs`, the computed value and the expected one.
pub fn line(name: &[u8], got: &[u8], expected: &[u8]) {
    let same = got == expected;
    verdict(name, same);
    if !same {
        print_values(got, expected);
    }
}
