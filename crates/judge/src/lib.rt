// What a frame's checks decide: code that only reads, each function one equation with a definition of the tag.
#![tactic(auto)]

pub mod frame;
pub mod reading;
