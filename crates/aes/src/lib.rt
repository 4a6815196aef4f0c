// AES-128 of FIPS 197: keys and blocks by value, for any bytes.
#![tactic(auto)]

ghost use Rattle.std.specs.Prelude.{◌≡◌};
ghost use Rattle.fips197.specs.KeyExpansion.{key_expansion};
ghost use Rattle.fips197.specs.Cipher.{encipher, decipher};
ghost use Rattle.aes.specs.TwoBlocks.{decipher_two};

// The 44 words of the key schedule, FIPS 197 section 5.2: handed on from `schedule`, since docs/CLAIMS.md names it here with its contract.
pub fn key_schedule(key: [u8; 16]) -> [u8; 176]
    ensures { result ≡ key_expansion key }
{
    schedule::expand(key)
}

// One block enciphered, FIPS 197 section 5.1.
#[tactic(auto, unfolding(fips197::specs::Cipher::encipher))]
pub fn encipher(key: [u8; 16], block: [u8; 16]) -> [u8; 16]
    ensures { result ≡ encipher key block }
{
    let w = key_schedule(key);
    rounds::cipher(&w, block)
}

// One block deciphered, FIPS 197 section 5.3. Apart from `encipher`: two algorithms of the standard, each with its definition.
#[tactic(auto, unfolding(fips197::specs::Cipher::decipher))]
pub fn decipher(key: [u8; 16], block: [u8; 16]) -> [u8; 16]
    ensures { result ≡ decipher key block }
{
    let w = key_schedule(key);
    rounds::inv_cipher(&w, block)
}

// A struct and no array: the definitions of aes/specs and cbc/specs name its fields.
#[derive(Clone, Copy)]
pub struct TwoBlocks {
    pub first: [u8; 16],
    pub second: [u8; 16],
}

// Two blocks deciphered, each by itself. The key is expanded once.
#[tactic(auto, unfolding(crate::specs::TwoBlocks::decipher_two, fips197::specs::Cipher::decipher))]
pub fn decipher_two(key: [u8; 16], first: [u8; 16], second: [u8; 16]) -> TwoBlocks
    ensures { result ≡ decipher_two key first second }
{
    let w = key_schedule(key);
    TwoBlocks {
        first: rounds::inv_cipher(&w, first),
        second: rounds::inv_cipher(&w, second),
    }
}
