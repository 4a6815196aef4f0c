// Numbers and blocks that stand in a run of bytes, each from byte at on. What lies past the end counts as 0.
#![tactic(auto)]

ghost use Rattle.std.specs.Prelude.{◌≡◌};
ghost use Rattle.fips197.specs.Cbc.{block_of};
ghost use Rattle.model.specs.Image.{number_at};

use octets::bytes_from;

// The numbers share `octets::bytes_from`, and each has a type or a size of its own that callers name.

// Two bytes, low byte first.
pub fn number2(i: &[u8], at: usize) -> u16
    ensures { result ≡ number_at i.now at 2 }
{
    u16::from_le_bytes(bytes_from(i, at))
}

// Three bytes, low byte first.
pub fn number3(i: &[u8], at: usize) -> u32
    ensures { result ≡ number_at i.now at 3 }
{
    let [low, middle, high]: [u8; 3] = bytes_from(i, at);
    u32::from_le_bytes([low, middle, high, 0])
}

// Four bytes, low byte first.
pub fn number4(i: &[u8], at: usize) -> u32
    ensures { result ≡ number_at i.now at 4 }
{
    u32::from_le_bytes(bytes_from(i, at))
}

// A block of 16 bytes. As columns::state::block_of, which says why there are two.
#[tactic(auto, using(fips197::proofs::Cbc::block_of_bytes))]
pub fn block_of(s: &[u8], at: usize) -> [u8; 16]
    ensures { result ≡ block_of s.now at }
{
    bytes_from(s, at)
}
