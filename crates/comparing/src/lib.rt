// For the program `vectors`: an answer of a tag and an image file, compared with what a text says.
#![tactic(auto)]

pub mod answer;
pub mod file;
