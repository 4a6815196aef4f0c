// The key expansion, FIPS 197 section 5.2, word by word.
#![tactic(auto)]

ghost use Rattle.std.specs.Prelude.{◌≡◌, [], ◌∷◌, ◌≤◌, ◌<◌};
ghost use Rattle.fips197.specs.KeyExpansion.{word_of, sub_word, rot_word, xor_word, power_of_x, next_word, key_expansion};

use std::array;

// The powers of x that the round constants start with.
static POWERS_OF_X: [u8; 10] = [1, 2, 4, 8, 16, 32, 64, 128, 27, 54];

#[tactic(auto, using(crate::proofs::Powers::powers_right))]
fn power_of_x(n: usize) -> u8
    requires { n < 10 }
    ensures { result ≡ power_of_x n }
{
    POWERS_OF_X[n]
}

// Word i of the key schedule.
fn word_of(w: &[u8; 176], i: usize) -> [u8; 4]
    requires { i < 44 }
    ensures { result ≡ word_of w.now i }
{
    array::from_fn(|r| w[4 * i + r])
}

// As columns::state::xor_block: one function over the length would need a definition of its own, for one line.
fn xor_word(u: [u8; 4], v: [u8; 4]) -> [u8; 4]
    ensures { result ≡ xor_word u v }
{
    array::from_fn(|j| u[j] ^ v[j])
}

// The word before a new round key, rotated, substituted, and with the round constant added.
fn rotated(u: [u8; 4], constant: u8) -> [u8; 4]
    ensures { result ≡ xor_word (sub_word (rot_word u)) (constant ∷ 0 ∷ 0 ∷ 0 ∷ []) }
{
    let [a, b, c, d] = u.map(sboxes::substitute);
    [b ^ constant, c, d, a]
}

// Word i of the schedule, from the words before it.
#[tactic(auto, unfolding(fips197::specs::KeyExpansion::next_word))]
fn next_word(w: &[u8; 176], i: usize) -> [u8; 4]
    requires { (4 ≤ i) × (i < 44) }
    ensures { result ≡ next_word w.now i }
{
    let before = word_of(w, i - 1);
    let added = if i % 4 == 0 {
        rotated(before, power_of_x(i / 4 - 1))
    } else {
        before
    };
    xor_word(word_of(w, i - 4), added)
}

#[tactic(auto, unfolding(fips197::specs::KeyExpansion::expand, fips197::specs::KeyExpansion::key_expansion))]
pub fn expand(key: [u8; 16]) -> [u8; 176]
    ensures { result ≡ key_expansion key }
{
    let mut w = [0u8; 176];
    w[..16].copy_from_slice(&key);
    // by index: it is the word number of the definition
    for i in 4..44 {
        let next = next_word(&w, i);
        w[4 * i..4 * i + 4].copy_from_slice(&next);
    }
    w
}
