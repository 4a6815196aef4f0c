// FIPS 197 as definitions and proved laws. There is no code here: the functions that meet them are in the crates sboxes, columns,
// schedule, mixing, rounds, aes and cbc.

#![tactic(auto)]
