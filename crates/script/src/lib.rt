// What a line of a bench script asks (document 01, "Image file and bench program").
#![tactic(auto)]

pub mod line;
