// Parts of a text: the value of a digit, and where a line ends.
#![tactic(auto)]

pub mod digits;
pub mod lines;
