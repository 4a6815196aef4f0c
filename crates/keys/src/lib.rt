// Keys and the two messages of a login, 009 8.6.1 to 8.6.3. All enciphering of the tag goes through `enciphered` and `deciphered`.
#![tactic(auto)]

ghost use Rattle.std.specs.Prelude.{◌≡◌, ◌<◌, length};
ghost use Rattle.fips197.specs.Cbc.{cbc_encipher};
ghost use Rattle.cbc.specs.TwoBlocks.{cbc_decipher_two};
ghost use Rattle.model.specs.Record.{zeros};
ghost use Rattle.model.specs.Authentication.{page_key, key_of, rotated, same_bytes};

use aes::TwoBlocks;
use memory::pages::Pages;
use model::Tag;
use std::array::from_fn;

// The sixteen bytes from offset i on, last byte first.
#[tactic(auto, unfolding(model::specs::Authentication::page_key))]
fn page_key(s: &[u8], i: usize) -> [u8; 16]
    ensures { result ≡ page_key s.now i }
{
    from_fn(|j| octets::behind(s, i, 15 - j))
}

// Key number k, a number as the definitions and the record for C have it: DataProtKey and UIDRetrKey from their pages, the originality key from the record.
#[tactic(auto, unfolding(model::specs::Authentication::key_of))]
pub fn key_of(pages: &Pages, tag: Tag, k: u8) -> [u8; 16]
    ensures { result ≡ key_of pages.now.map tag pages.now.bytes.now k }
{
    match k {
        0 => page_key(pages.bytes, 4 * (pages.map.key0 as usize)),
        1 => page_key(pages.bytes, 4 * (pages.map.key1 as usize)),
        _ => tag.originality,
    }
}

// Sixteen lent bytes by value.
pub fn block_of(b: &[u8]) -> [u8; 16]
    requires { length b.now ≡ 16 }
    ensures { result ≡ b.now }
{
    b.try_into().unwrap()
}

// A block rotated left by one byte.
pub fn rotated(b: [u8; 16]) -> [u8; 16]
    ensures { result ≡ rotated b }
{
    let mut turned = b;
    turned.rotate_left(1);
    turned
}

// The same sixteen bytes; every byte is compared, whatever the others are.
pub fn same_bytes(a: [u8; 16], b: [u8; 16]) -> bool
    ensures { result ≡ same_bytes a b }
{
    let mut same = true;
    for (x, y) in a.iter().zip(&b) {
        same &= x == y;
    }
    same
}

// A block of a message, enciphered from a zero IV (Table 17).
pub fn enciphered(key: [u8; 16], block: [u8; 16]) -> [u8; 16]
    ensures { result ≡ cbc_encipher key zeros block }
{
    cbc::cbc_encipher(key, [0u8; 16], block)
}

// The two blocks of a message, deciphered from a zero IV.
pub fn deciphered(key: [u8; 16], message: &[u8]) -> TwoBlocks
    ensures { result ≡ cbc_decipher_two key zeros message.now }
{
    cbc::cbc_decipher_two(key, [0u8; 16], message)
}
