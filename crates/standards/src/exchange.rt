// The login of MF0AES(H)20, Table 17: the key is zero, and so is each message's initialization vector.
use crate::chained;
use reports::digits;

const ZERO: [u8; 16] = [0; 16];

const READER: [u8; 64] = *b"cdf22c5f7a92f0af0155612b9b236ac7\
    a424bc5238d41ad041b8165b7d99e524";

// A message of the tag: one block.
fn tag_message(name: &[u8], plain: &[u8], cipher: &[u8]) {
    chained::encipher(
        name,
        ZERO,
        ZERO,
        digits::octets_of(plain, 0),
        digits::octets_of(cipher, 0),
    );
}

// The reader's message: RndA, and RndB turned by a byte.
fn reader_message() {
    let p1 = digits::octets_of(b"f29b0123f5c00df612487bbf42468c7e", 0);
    let p2 = digits::octets_of(b"e4174ca173ebbc59165cebe2f208211a", 0);
    let expected = digits::octets_of(&READER, 0);
    let c1 = chained::encipher(b"MF0AES(H)20 Table 17 RndA", ZERO, ZERO, p1, expected);
    let expected = digits::octets_of(&READER, 16);
    chained::encipher(b"MF0AES(H)20 Table 17 RndB'", ZERO, c1, p2, expected);
    chained::decipher_two(
        ZERO,
        ZERO,
        digits::octets_of(&READER, 0),
        (b"MF0AES(H)20 Table 17 RndA deciphered", p1),
        (b"MF0AES(H)20 Table 17 RndB' deciphered", p2),
    );
}

pub fn messages() {
    tag_message(
        b"MF0AES(H)20 Table 17 RndB",
        b"1ae4174ca173ebbc59165cebe2f20821",
        b"d5a847b84862ff3874a7f07b8ddf351b",
    );
    reader_message();
    tag_message(
        b"MF0AES(H)20 Table 17 RndA'",
        b"9b0123f5c00df612487bbf42468c7ef2",
        b"2c743d6b1e128f8076bd197b76012ce8",
    );
}
