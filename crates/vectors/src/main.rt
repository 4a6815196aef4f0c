// Outside vectors through the public functions of `aes`, `cbc`, `crc` and `tag`: a line for each, with its name and whether the value came out.
#![tactic(auto)]

use standards::{cipher, exchange, modes, trailer};

fn main() {
    cipher::key_expansion();
    cipher::examples();
    modes::ecb();
    modes::cbc();
    trailer::trailers();
    exchange::messages();
    logins::logins();
    logins::changed_reply();
    cipher::changed_byte();
}
