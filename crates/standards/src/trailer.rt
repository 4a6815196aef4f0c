// CRC_A: the two bytes that follow a frame.
use reports::report;

fn trailer(name: &[u8], frame: &[u8], first: u8, second: u8) {
    let got = crc::on_air(crc::crc_a(frame));
    report::line(name, &got, &[first, second]);
}

pub fn trailers() {
    trailer(b"CRC_A of 30 00", b"\x30\x00", 0x02, 0xa8);
    trailer(b"CRC_A of 50 00", b"\x50\x00", 0x57, 0xcd);
    trailer(b"CRC_A of no byte", b"", 0x63, 0x63);
}
