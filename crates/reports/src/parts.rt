// The parts of a text, with a mark behind each but the last.

// Part n of a text, from 0; one that is not there is empty.
pub fn part(text: &[u8], mark: u8, n: usize) -> &[u8] {
    text.split(|b| *b == mark).nth(n).unwrap_or(b"")
}
