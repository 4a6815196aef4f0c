// Blocks chained in CBC mode. Key and chaining value are apart, as in `cbc`.
use reports::report;

// The computed ciphertext comes back: it is the next block's chaining value.
pub fn encipher(
    name: &[u8],
    key: [u8; 16],
    chain: [u8; 16],
    plain: [u8; 16],
    cipher: [u8; 16],
) -> [u8; 16] {
    let got = cbc::cbc_encipher(key, chain, plain);
    report::line(name, &got, &cipher);
    got
}

// The first two blocks of a ciphertext by one call, each with its name and its plaintext.
pub fn decipher_two(
    key: [u8; 16],
    chain: [u8; 16],
    ciphertext: [u8; 32],
    (one, first): (&[u8], [u8; 16]),
    (two, second): (&[u8], [u8; 16]),
) {
    let got = cbc::cbc_decipher_two(key, chain, &ciphertext);
    report::line(one, &got.first, &first);
    report::line(two, &got.second, &second);
}
