// Hexadecimal digits.
ghost use Rattle.std.specs.Prelude.{◌≡◌, ◌%◌, ◌<◌, get_or, MatchOption};
ghost use Rattle.text.specs.Digits.{digit_of, octet_of};

// The value of a digit, and none for every other byte. `char::to_digit` takes upper case too.
#[tactic(auto, unfolding(crate::specs::Digits::digit_of))]
pub fn digit(b: u8) -> Option<u8>
    ensures { MatchOption result (digit_of b ≡ 16) (λ d. (d ≡ digit_of b) × (d < 16)) }
{
    match b {
        b'0'..=b'9' => Some(b - b'0'),
        b'a'..=b'f' => Some(b - b'a' + 10),
        _ => None,
    }
}

// The value of the digit at place i; any other byte counts 0, and so does what is past the end.
fn value_at(text: &[u8], i: usize) -> u8
    ensures value { result ≡ digit_of (get_or text.now i 0) % 16 }
    ensures bound { result < 16 }
{
    digit(octets::at(text, i)).unwrap_or(0)
}

// The byte of the two digits at place i and behind it, the high one first.
#[tactic(auto, unfolding(crate::specs::Digits::octet_of))]
pub fn octet(text: &[u8], i: usize) -> u8
    ensures { result ≡ octet_of text.now i }
{
    16 * value_at(text, i) + value_at(text, i.saturating_add(1))
}
