// The standards' vectors through `aes`, `cbc` and `crc`: a line for each, with its name and whether the value came out.
#![tactic(auto)]

mod chained;
pub mod cipher;
pub mod exchange;
pub mod modes;
pub mod trailer;
