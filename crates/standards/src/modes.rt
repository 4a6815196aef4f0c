// ECB and CBC with AES-128: SP 800-38A, F.1.1, F.1.2, F.2.1 and F.2.2.
use crate::{chained, cipher};
use reports::{digits, report};

const PLAIN: [u8; 128] = *b"6bc1bee22e409f96e93d7e117393172a\
    ae2d8a571e03ac9c9eb76fac45af8e51\
    30c81c46a35ce411e5fbc1191a0a52ef\
    f69f2445df4f9b17ad2b417be66c3710";

const ECB: [u8; 128] = *b"3ad77bb40d7a3660a89ecaf32466ef97\
    f5d3d58503b9699de785895a96fdbaaf\
    43b1cd7f598ece23881b00e3ed030688\
    7b0c785e27e8ad3f8223207104725dd4";

const CBC: [u8; 128] = *b"7649abac8119b246cee98e9b12e9197d\
    5086cb9b507219ee95db113a917678b2\
    73bed6b8e3c1743b7116e69e22229516\
    3ff1caa1681fac09120eca307586e1a7";

// The bytes of a block's digits.
fn block(digits: &[u8]) -> [u8; 16] {
    digits::octets_of(digits, 0)
}

// The names of a block's two ways. Names and texts are written out, as the standard and the report have them: a name made in code would be found by no search.
const ECB_NAMES: [(&[u8], &[u8]); 4] = [
    (b"SP 800-38A F.1.1 block 1", b"SP 800-38A F.1.2 block 1"),
    (b"SP 800-38A F.1.1 block 2", b"SP 800-38A F.1.2 block 2"),
    (b"SP 800-38A F.1.1 block 3", b"SP 800-38A F.1.2 block 3"),
    (b"SP 800-38A F.1.1 block 4", b"SP 800-38A F.1.2 block 4"),
];

pub fn ecb() {
    let texts = PLAIN.chunks(32).zip(ECB.chunks(32));
    for ((there, back), (plain, cipher)) in ECB_NAMES.iter().zip(texts) {
        let key = cipher::example_key();
        cipher::both_ways(there, back, key, block(plain), block(cipher));
    }
}

const ENCIPHER_NAMES: [&[u8]; 4] = [
    b"SP 800-38A F.2.1 block 1",
    b"SP 800-38A F.2.1 block 2",
    b"SP 800-38A F.2.1 block 3",
    b"SP 800-38A F.2.1 block 4",
];

fn cbc_encipher() {
    let key = cipher::example_key();
    let mut chain = cipher::counting();
    let texts = PLAIN.chunks(32).zip(CBC.chunks(32));
    for (name, (plain, cipher)) in ENCIPHER_NAMES.iter().zip(texts) {
        let next = chained::encipher(name, key, chain, block(plain), block(cipher));
        chain = next;
    }
}

const DECIPHER_NAMES: [&[u8]; 4] = [
    b"SP 800-38A F.2.2 block 1",
    b"SP 800-38A F.2.2 block 2",
    b"SP 800-38A F.2.2 block 3",
    b"SP 800-38A F.2.2 block 4",
];

fn cbc_decipher() {
    let key = cipher::example_key();
    let mut chain = cipher::counting();
    let texts = PLAIN.chunks(32).zip(CBC.chunks(32));
    for (name, (plain, cipher)) in DECIPHER_NAMES.iter().zip(texts) {
        let cipher = block(cipher);
        report::line(name, &cbc::cbc_decipher(key, chain, cipher), &block(plain));
        chain = cipher;
    }
}

fn cbc_decipher_two() {
    chained::decipher_two(
        cipher::example_key(),
        cipher::counting(),
        digits::octets_of(&CBC, 0),
        (b"SP 800-38A F.2.2 block 1 of two", block(&PLAIN)),
        (b"SP 800-38A F.2.2 block 2 of two", block(&PLAIN[32..])),
    );
}

pub fn cbc() {
    cbc_encipher();
    cbc_decipher();
    cbc_decipher_two();
}
