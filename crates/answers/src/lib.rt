// The text of an answer of the bench program (document 01, "Image file and bench program").
#![tactic(auto)]

pub mod answer;
