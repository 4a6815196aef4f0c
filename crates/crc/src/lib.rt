// CRC_A of ISO/IEC 14443-3 type A, by half-bytes from a table of 16, and its two bytes as they follow a frame.
#![tactic(auto)]

ghost use Rattle.std.specs.Prelude.{◌≡◌};
ghost use Rattle.crc.specs.CrcA.{crc_bits, crc_byte, crc_a, on_air};
ghost use Rattle.crc.specs.HalfBytes.{half_table};

const START: u16 = 0x6363;

// What each half-byte feeds back when it is shifted out: specs/HalfBytes.antt.
static HALF_BYTES: [u16; 16] = [
    0x0000, 0x1081, 0x2102, 0x3183, 0x4204, 0x5285, 0x6306, 0x7387, 0x8408, 0x9489, 0xa50a, 0xb58b,
    0xc60c, 0xd68d, 0xe70e, 0xf78f,
];

// Four bit steps of the register.
#[tactic(auto, using(crate::proofs::HalfBytes::half_bytes_right), unfolding(crate::specs::HalfBytes::half_table))]
fn crc_half(register: u16) -> u16
    ensures { result ≡ crc_bits 4 register }
{
    (register >> 4) ^ HALF_BYTES[(register % 16) as usize]
}

// The register after one byte: the byte is xored in, and its low half-byte is shifted out first.
#[tactic(auto, using(crate::proofs::HalfBytes::byte_halves), unfolding(crate::specs::CrcA::crc_byte))]
fn crc_byte(register: u16, byte: u8) -> u16
    ensures { result ≡ crc_byte register byte }
{
    let low = crc_half(register ^ (byte as u16));
    crc_half(low)
}

// The CRC_A of a frame. Tried: `frame.iter().copied().fold(START, crc_byte)` takes twice as long over three bytes.
#[tactic(auto, unfolding(crate::specs::CrcA::crc_a))]
pub fn crc_a(frame: &[u8]) -> u16
    ensures { result ≡ crc_a frame.now }
{
    let mut register = START;
    for byte in frame {
        register = crc_byte(register, *byte);
    }
    register
}

// The bytes that follow a frame: low byte first.
#[tactic(auto, unfolding(crate::specs::CrcA::on_air))]
pub fn on_air(crc: u16) -> [u8; 2]
    ensures { result ≡ on_air crc }
{
    crc.to_le_bytes()
}
