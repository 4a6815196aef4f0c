// The state as a block of 16 bytes, column by column, and the steps of a round on it: FIPS 197 sections 3.4, 5.1.1, 5.1.2, 5.1.4, 5.3.1 and 5.3.2.
ghost use Rattle.std.specs.Prelude.{◌≡◌, ◌<◌};
ghost use Rattle.fips197.specs.State.{sub_bytes, inv_sub_bytes, shift_rows, inv_shift_rows, add_round_key};
ghost use Rattle.fips197.specs.Cbc.{xor_block, block_of};

use std::array;

// Each byte by the S-box.
#[tactic(auto, unfolding(fips197::specs::State::sub_bytes))]
pub fn sub_bytes(s: [u8; 16]) -> [u8; 16]
    ensures { result ≡ sub_bytes s }
{
    s.map(sboxes::substitute)
}

// Each byte by the inverse of the S-box, a step of its own in the standard.
#[tactic(auto, unfolding(fips197::specs::State::inv_sub_bytes))]
pub fn inv_sub_bytes(s: [u8; 16]) -> [u8; 16]
    ensures { result ≡ inv_sub_bytes s }
{
    s.map(sboxes::inv_substitute)
}

// Row r moves r columns to the left. Its inverse stays apart: one function of both would need a definition that FIPS 197 does not have, for one line.
#[tactic(auto, unfolding(fips197::specs::State::shift_rows))]
pub fn shift_rows(s: [u8; 16]) -> [u8; 16]
    ensures { result ≡ shift_rows s }
{
    array::from_fn(|i| s[(i + 4 * (i % 4)) % 16])
}

// Row r moves r columns to the right.
#[tactic(auto, unfolding(fips197::specs::State::inv_shift_rows))]
pub fn inv_shift_rows(s: [u8; 16]) -> [u8; 16]
    ensures { result ≡ inv_shift_rows s }
{
    array::from_fn(|i| s[(i + 12 * (i % 4)) % 16])
}

// Round key n of the key schedule added. The definitions number the rounds, so `n < 11` stays here and in `rounds`.
#[tactic(auto, unfolding(fips197::specs::State::add_round_key))]
pub fn add_round_key(w: &[u8; 176], n: usize, s: [u8; 16]) -> [u8; 16]
    requires { n < 11 }
    ensures { result ≡ add_round_key w.now n s }
{
    array::from_fn(|i| s[i] ^ w[16 * n + i])
}

// The sixteen bytes of s from byte n on; a byte past its end counts 0. Beside fields::block_of: what both share is
// `bytes_from`; in `cbc`, its only caller, it would be the same line, and a crate for both would hold that line alone.
#[tactic(auto, using(fips197::proofs::Cbc::block_of_bytes))]
pub fn block_of(s: &[u8], n: usize) -> [u8; 16]
    ensures { result ≡ block_of s.now n }
{
    octets::bytes_from(s, n)
}

#[tactic(auto, unfolding(fips197::specs::Cbc::xor_block))]
pub fn xor_block(a: [u8; 16], b: [u8; 16]) -> [u8; 16]
    ensures { result ≡ xor_block a b }
{
    array::from_fn(|i| a[i] ^ b[i])
}
