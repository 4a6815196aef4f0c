// The cipher and the inverse cipher, FIPS 197 sections 5.1 and 5.3, over a key schedule that is given. The inverse takes the steps in another order,
// so that neither is an instance of the other.
#![tactic(auto)]

ghost use Rattle.std.specs.Prelude.{◌≡◌, ◌<◌};
ghost use Rattle.fips197.specs.Cipher.{round, last_round, cipher, inv_round, inv_last_round, inv_cipher};

use columns::state::{add_round_key, inv_shift_rows, inv_sub_bytes, shift_rows, sub_bytes};
use mixing::{inv_mix_columns, mix_columns};

#[tactic(auto, unfolding(fips197::specs::Cipher::round))]
fn round(w: &[u8; 176], n: usize, s: [u8; 16]) -> [u8; 16]
    requires { n < 11 }
    ensures { result ≡ round w.now n s }
{
    add_round_key(w, n, mix_columns(shift_rows(sub_bytes(s))))
}

#[tactic(auto, unfolding(fips197::specs::Cipher::last_round))]
fn last_round(w: &[u8; 176], s: [u8; 16]) -> [u8; 16]
    ensures { result ≡ last_round w.now s }
{
    add_round_key(w, 10, shift_rows(sub_bytes(s)))
}

#[tactic(auto, unfolding(fips197::specs::Cipher::rounds, fips197::specs::Cipher::cipher))]
pub fn cipher(w: &[u8; 176], block: [u8; 16]) -> [u8; 16]
    ensures { result ≡ cipher w.now block }
{
    // tried: a `fold`, whose closure did not know that n is below 11
    let mut s = add_round_key(w, 0, block);
    for n in 1..10 {
        // the check covers no array that is assigned from a call; so too in `inv_cipher`
        let next = round(w, n, s);
        s = next;
    }
    last_round(w, s)
}

#[tactic(auto, unfolding(fips197::specs::Cipher::inv_round))]
fn inv_round(w: &[u8; 176], n: usize, s: [u8; 16]) -> [u8; 16]
    requires { n < 11 }
    ensures { result ≡ inv_round w.now n s }
{
    inv_mix_columns(add_round_key(w, n, inv_sub_bytes(inv_shift_rows(s))))
}

#[tactic(auto, unfolding(fips197::specs::Cipher::inv_last_round))]
fn inv_last_round(w: &[u8; 176], s: [u8; 16]) -> [u8; 16]
    ensures { result ≡ inv_last_round w.now s }
{
    add_round_key(w, 0, inv_sub_bytes(inv_shift_rows(s)))
}

#[tactic(auto, unfolding(fips197::specs::Cipher::inv_cipher, fips197::specs::Cipher::inv_rounds))]
pub fn inv_cipher(w: &[u8; 176], block: [u8; 16]) -> [u8; 16]
    ensures { result ≡ inv_cipher w.now block }
{
    let mut s = add_round_key(w, 10, block);
    for n in (1..10).rev() {
        let next = inv_round(w, n, s);
        s = next;
    }
    inv_last_round(w, s)
}
