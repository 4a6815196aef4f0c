// AES-128 for C and Rust: thin exported calls that work in place on the caller's block. Two, since the C interface names both.
#![tactic(auto)]

ghost use Rattle.std.specs.Prelude.{◌≡◌};
ghost use Rattle.fips197.specs.Cipher.{encipher, decipher};

#[unsafe(no_mangle)]
pub extern "C" fn kz_aes_encipher(key: &[u8; 16], block: &mut [u8; 16])
    ensures { block.new ≡ encipher key.now block.old }
{
    *block = aes::encipher(*key, *block);
}

#[unsafe(no_mangle)]
pub extern "C" fn kz_aes_decipher(key: &[u8; 16], block: &mut [u8; 16])
    ensures { block.new ≡ decipher key.now block.old }
{
    *block = aes::decipher(*key, *block);
}
