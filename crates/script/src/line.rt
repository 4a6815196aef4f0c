// What a line of a script asks.
ghost use Rattle.std.specs.Prelude.{◌≡◌};
ghost use Rattle.std.specs.List.{list_all};
ghost use Rattle.std.proofs.lemmas.List.Edits.{sets};
ghost use Rattle.script.specs.Line.{is_digit, frame_right, line_of, byte_at, frame_bytes};

use text::digits;

// A power-on, a selection, or a frame of so many bytes: a count and no slice of the line, as `line_of` and `turn_of` have it.
#[derive(Clone, Copy)]
pub enum Line {
    Power,
    Select,
    Frame(u8),
}

// A digit of the frame.
fn is_digit(b: u8) -> bool
    ensures { result ≡ is_digit b }
{
    digits::digit(b).is_some()
}

fn all_digits(bytes: &[u8]) -> bool
    ensures { result ≡ list_all is_digit bytes.now }
{
    bytes.iter().all(|b| is_digit(*b))
}

// `F`, a space, and the digits of 1 to 62 bytes.
#[tactic(auto, unfolding(crate::specs::Line::frame_right, crate::specs::Line::digits_right))]
fn frame_right(line: &[u8]) -> bool
    ensures { result ≡ frame_right line.now }
{
    let n = line.len();
    match line {
        [b'F', b' ', digits @ ..] => 4 <= n && n <= 126 && n % 2 == 0 && all_digits(digits),
        _ => false,
    }
}

// What a line asks; none where it is a bad line.
#[tactic(auto, unfolding(crate::specs::Line::line_of, crate::specs::Line::only))]
pub fn line_of(line: &[u8]) -> Option<Line>
    ensures { result ≡ line_of line.now }
{
    match line {
        b"P" => Some(Line::Power),
        b"S" => Some(Line::Select),
        _ if frame_right(line) => Some(Line::Frame((line.len() / 2 - 1) as u8)),
        _ => None,
    }
}

// Byte i of the frame that a line asks for.
#[tactic(auto, unfolding(crate::specs::Line::byte_at, text::specs::Digits::octet_of))]
fn byte_at(line: &[u8], i: u8) -> u8
    ensures { result ≡ byte_at line.now i }
{
    digits::octet(line, 2 * (i as usize) + 2)
}

// The first n bytes of that frame, laid over the start of a buffer. By place: `iter_mut().enumerate()` would need the end cut to the buffer first, and each
// place cast back to u8, which is no plainer.
pub fn lay_frame(line: &[u8], n: u8, frame: &mut [u8])
    ensures { frame.new ≡ sets frame.old 0 (frame_bytes line.now n) }
{
    for i in 0..n {
        octets::put(frame, i as usize, byte_at(line, i));
    }
}
