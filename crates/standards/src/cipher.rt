// Key expansion and single blocks: FIPS 197, Appendices A.1, B and C.1.
use reports::{digits, report};

// The key of A.1, of B and of SP 800-38A.
pub fn example_key() -> [u8; 16] {
    digits::octets_of(b"2b7e151628aed2a6abf7158809cf4f3c", 0)
}

// The key of C.1, and the initialization vector of SP 800-38A.
pub fn counting() -> [u8; 16] {
    digits::octets_of(b"000102030405060708090a0b0c0d0e0f", 0)
}

pub fn key_expansion() {
    let expected: [u8; 176] = digits::octets_of(
        b"2b7e151628aed2a6abf7158809cf4f3c\
          a0fafe1788542cb123a339392a6c7605\
          f2c295f27a96b9435935807a7359f67f\
          3d80477d4716fe3e1e237e446d7a883b\
          ef44a541a8525b7fb671253bdb0bad00\
          d4d1c6f87c839d87caf2b8bc11f915bc\
          6d88a37a110b3efddbf98641ca0093fd\
          4e54f70e5f5fc9f384a64fb24ea6dc4f\
          ead27321b58dbad2312bf5607f8d292f\
          ac7766f319fadc2128d12941575c006e\
          d014f9a8c9ee2589e13f0cc8b6630ca6",
        0,
    );
    let got = aes::key_schedule(example_key());
    report::line(b"FIPS 197 A.1 key expansion", &got, &expected);
}

// One block each way, with a name for each.
pub fn both_ways(there: &[u8], back: &[u8], key: [u8; 16], plain: [u8; 16], cipher: [u8; 16]) {
    report::line(there, &aes::encipher(key, plain), &cipher);
    report::line(back, &aes::decipher(key, cipher), &plain);
}

fn c1_plain() -> [u8; 16] {
    digits::octets_of(b"00112233445566778899aabbccddeeff", 0)
}

pub fn examples() {
    both_ways(
        b"FIPS 197 B encipher",
        b"FIPS 197 B decipher",
        example_key(),
        digits::octets_of(b"3243f6a8885a308d313198a2e0370734", 0),
        digits::octets_of(b"3925841d02dc09fbdc118597196a0b32", 0),
    );
    both_ways(
        b"FIPS 197 C.1 encipher",
        b"FIPS 197 C.1 decipher",
        counting(),
        c1_plain(),
        digits::octets_of(b"69c4e0d86a7b0430d8cdb78070b4c55a", 0),
    );
}

// C.1 with the last byte of its ciphertext changed, to show that a difference is told.
pub fn changed_byte() {
    let expected: [u8; 16] = digits::octets_of(b"69c4e0d86a7b0430d8cdb78070b4c55b", 0);
    let got = aes::encipher(counting(), c1_plain());
    report::line(b"a changed byte is reported", &got, &expected);
}
