// For the program `vectors`: sessions with a tag from a text.
#![tactic(auto)]

pub mod play;
