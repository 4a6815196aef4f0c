// CRC_A for C and Rust: a thin exported call, for the timing.
#![tactic(auto)]

ghost use Rattle.std.specs.Prelude.{◌≡◌};
ghost use Rattle.crc.specs.CrcA.{crc_a};

#[unsafe(no_mangle)]
pub extern "C" fn kz_crc_a(frame: &[u8]) -> u16
    ensures { result ≡ crc_a frame.now }
{
    crc::crc_a(frame)
}
