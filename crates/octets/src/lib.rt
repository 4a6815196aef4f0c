// Access to lent bytes that no length can break: reading past the end gives 0, and storing there does nothing.
#![tactic(auto)]

ghost use Rattle.std.specs.Prelude.{◌≡◌, ℕ, ◌+◌, ◌*◌, ◌<◌, ◌≤◌, length, get_or, set};
ghost use Rattle.std.proofs.lemmas.List.Edits.{sets};

use std::array::from_fn;

// Byte i of s, and 0 past its end.
pub fn at(s: &[u8], i: usize) -> u8
    ensures { result ≡ get_or s.now i 0 }
{
    s.get(i).copied().unwrap_or(0)
}

// Byte k from byte start of s on, and 0 past the end of s.
pub fn behind(s: &[u8], start: usize, k: usize) -> u8
    ensures { result ≡ get_or s.now (start + k) 0 }
{
    at(s, start.saturating_add(k))
}

// The N bytes of s from byte start on; what lies past the end of s is 0.
pub fn bytes_from<const N: usize>(s: &[u8], start: usize) -> [u8; N]
    ensures { (k : ℕ) → k < N → get_or result k 0 ≡ get_or s.now (start + k) 0 }
{
    from_fn(|k| behind(s, start, k))
}

// Byte k of a page of four bytes, and 0 past the end of s.
pub fn byte_of(s: &[u8], page: u8, k: u8) -> u8
    ensures { result ≡ get_or s.now (4 * page + k) 0 }
{
    at(s, 4 * (page as usize) + (k as usize))
}

// The number of two bytes that are sent low byte first.
pub fn low_first(low: u8, high: u8) -> u16
    ensures { result ≡ low + 256 * high }
{
    u16::from_le_bytes([low, high])
}

// Byte i of s becomes b; past its end nothing is stored. By place, here and in `lay`: std promises nothing of what `get_mut` or `iter_mut` under `zip` leaves.
pub fn put(s: &mut [u8], i: usize, b: u8)
    ensures { s.new ≡ set s.old i b }
{
    if i < s.len() {
        s[i] = b;
    }
}

// The bytes bs are laid over s from index first on; what passes its end is not stored.
pub fn lay(s: &mut [u8], first: usize, bs: &[u8])
    requires { first ≤ length s.old }
    ensures { s.new ≡ sets s.old first bs.now }
{
    for (i, b) in bs.iter().enumerate() {
        put(s, first + i, *b);
    }
}
