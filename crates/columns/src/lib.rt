// The AES state and the steps of a round on it, for `rounds`: FIPS 197 sections 5.1 and 5.3 but for MixColumns.
#![tactic(auto)]

pub mod state;
