// Bytes from the hexadecimal digits that the standards print.
ghost use Rattle.std.specs.Prelude.{◌≡◌, ◌+◌, ◌-◌, ◌/◌, ◌%◌, ◌<◌, length, min};
ghost use Rattle.std.proofs.lemmas.List.Edits.{sets};
ghost use Rattle.io.specs.Counts.{IsPrefixLen};
ghost use Rattle.text.specs.Digits.{digit_of};
ghost use Rattle.reports.specs.Digits.{octet_or_zero, octets_from};

use std::array::from_fn;
use text::digits;

// The value of a lower-case hexadecimal digit; any other byte counts 0. Of a digit: `text::digits` reads one at a place of a text.
pub fn value(digit: u8) -> u8
    ensures value { result ≡ digit_of digit % 16 }
    ensures bound { result < 16 }
{
    digits::digit(digit).unwrap_or(0)
}

// Byte k from byte start on of a text of digits, and 0 where the text has not both of its digits: `octet` alone would read a last digit that stands alone.
#[tactic(auto, unfolding(crate::specs::Digits::octet_or_zero))]
fn octet_or_zero(text: &[u8], start: usize, k: usize) -> u8
    ensures { result ≡ octet_or_zero text.now (start + k) }
{
    if k < (text.len() / 2).saturating_sub(start) {
        digits::octet(text, 2 * (start + k))
    } else {
        0
    }
}

// Lays the bytes of a text from byte start on over the first bytes of out, as many as there are and as fit; returns how many they are.
// A count beside the buffer, since a change is laid into the middle of a file: a list of the bytes would be copied there, which is no plainer.
pub fn lay(text: &[u8], start: usize, out: &mut [u8]) -> usize
    ensures prefix { IsPrefixLen result out.new }
    ensures count { result ≡ min (length text.now / 2 - start) (length out.old) }
    ensures out_after { out.new ≡ sets out.old 0 (octets_from text.now start result) }
{
    let n = (text.len() / 2).saturating_sub(start).min(out.len());
    for (i, byte) in out[..n].iter_mut().enumerate() {
        *byte = octet_or_zero(text, start, i);
    }
    n
}

// The bytes of a text from byte start on; where there are fewer, zeros stand behind them.
pub fn octets_of<const N: usize>(text: &[u8], start: usize) -> [u8; N]
    ensures { result ≡ octets_from text.now start N }
{
    from_fn(|k| octet_or_zero(text, start, k))
}
