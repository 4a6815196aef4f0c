// The CBC mode of NIST SP 800-38A over `aes`: keys and blocks by value, for any bytes. Key and chaining value are passed apart, as the contracts' definitions are of
// both, and as the chaining value is another for each block and the key the same.
#![tactic(auto)]

ghost use Rattle.std.specs.Prelude.{◌≡◌};
ghost use Rattle.fips197.specs.Cbc.{cbc_encipher, cbc_decipher};
ghost use Rattle.cbc.specs.TwoBlocks.{cbc_decipher_two};

use aes::TwoBlocks;
use columns::state;

// One block enciphered in CBC mode: chain is the ciphertext before it, or the initialization vector.
#[tactic(auto, unfolding(fips197::specs::Cbc::cbc_encipher))]
pub fn cbc_encipher(key: [u8; 16], chain: [u8; 16], block: [u8; 16]) -> [u8; 16]
    ensures { result ≡ cbc_encipher key chain block }
{
    aes::encipher(key, state::xor_block(block, chain))
}

// One block deciphered in CBC mode: chain is the ciphertext before it, or the initialization vector.
// Apart from `cbc_encipher`: two algorithms of the standard, each with its definition.
#[tactic(auto, unfolding(fips197::specs::Cbc::cbc_decipher))]
pub fn cbc_decipher(key: [u8; 16], chain: [u8; 16], block: [u8; 16]) -> [u8; 16]
    ensures { result ≡ cbc_decipher key chain block }
{
    state::xor_block(aes::decipher(key, block), chain)
}

// The first two blocks of a lent ciphertext deciphered in CBC mode; a byte past its end counts 0.
#[tactic(auto, unfolding(crate::specs::TwoBlocks::cbc_decipher_two, fips197::specs::Cbc::cbc_decipher, aes::specs::TwoBlocks::decipher_two))]
pub fn cbc_decipher_two(key: [u8; 16], chain: [u8; 16], ciphertext: &[u8]) -> TwoBlocks
    ensures { result ≡ cbc_decipher_two key chain ciphertext.now }
{
    let c1 = state::block_of(ciphertext, 0);
    let c2 = state::block_of(ciphertext, 16);
    let p = aes::decipher_two(key, c1, c2);
    TwoBlocks {
        first: state::xor_block(p.first, chain),
        second: state::xor_block(p.second, c1),
    }
}
