// Lines in bytes that come in pieces.
ghost use Rattle.std.specs.Prelude.{◌≡◌, ◌==◌, ◌+◌, ◌<◌, ◌≤◌, length, take, drop, position, MatchOption};
ghost use Rattle.text.specs.Lines.{before_mark, line_length, held_of};

use arrayvec::ArrayVec;

// How many bytes stand before the first mark, where there is one.
fn place_of(bytes: &[u8], mark: u8) -> Option<usize>
    ensures { result ≡ position (λ b. b == mark) bytes.now }
{
    bytes.iter().position(|b| *b == mark)
}

// The place of the first mark from i on, or the end. It and `newline_from` stay beside `cut_line`: docs/CLAIMS.md names the promise of `newline_from`, which rests on it.
pub fn mark_from(bytes: &[u8], mark: u8, i: usize) -> usize
    requires { i ≤ length bytes.now }
    ensures value { result ≡ i + before_mark mark (drop i bytes.now) }
    ensures lower_bound { i ≤ result }
    ensures upper_bound { result ≤ length bytes.now }
{
    match place_of(&bytes[i..], mark) {
        Some(n) => i + n,
        None => bytes.len(),
    }
}

// The place of the first newline from i on, or the end.
pub fn newline_from(bytes: &[u8], i: usize) -> usize
    requires { i ≤ length bytes.now }
    ensures value { result ≡ i + line_length (drop i bytes.now) }
    ensures lower_bound { i ≤ result }
    ensures upper_bound { result ≤ length bytes.now }
{
    mark_from(bytes, b'\n', i)
}

// The first line, and what stands behind its newline; none where there is no newline.
pub fn cut_line(bytes: &[u8]) -> Option<(&[u8], &[u8])>
    ensures { let n = line_length bytes.now in MatchOption result (n ≡ length bytes.now) (λ cut.
        (n < length bytes.now) × (cut.0.now ≡ take n bytes.now) × (cut.1.now ≡ drop (n + 1) bytes.now)) }
{
    let e = newline_from(bytes, 0);
    if e < bytes.len() {
        Some((&bytes[..e], &bytes[e + 1..]))
    } else {
        None
    }
}

// A piece of a line that is not yet whole is held behind the bytes that are held of it, up to 127 in all.
pub fn hold(line: &mut ArrayVec<u8, 127>, piece: &[u8])
    ensures { line.new.items ≡ held_of line.old.items piece.now }
{
    let n = piece.len().min(line.remaining_capacity());
    line.try_extend_from_slice(&piece[..n]).unwrap();
}
