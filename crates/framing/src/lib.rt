// CRC_A behind the bytes at the start of a buffer: the end of every frame and of every reply of bytes.
#![tactic(auto)]

ghost use Rattle.std.specs.Prelude.{◌≡◌, ◌+◌, ◌≤◌, length, take};
ghost use Rattle.std.proofs.lemmas.List.Edits.{sets};
ghost use Rattle.crc.specs.CrcA.{with_crc};

// CRC_A of the first n bytes behind them, low byte first; returns how many bytes they are with it. A buffer with a count beside it, as C lends it.
#[tactic(auto, unfolding(crc::specs::CrcA::with_crc))]
pub fn seal(reply: &mut [u8], n: usize) -> usize
    requires { n + 2 ≤ length reply.old }
    ensures value { result ≡ n + 2 }
    ensures reply_after { reply.new ≡ sets reply.old 0 (with_crc (take n reply.old)) }
{
    let trailer = crc::on_air(crc::crc_a(&reply[..n]));
    octets::lay(reply, n, &trailer);
    n + 2
}
