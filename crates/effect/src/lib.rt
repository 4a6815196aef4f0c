// What a frame leaves behind: the only code that stores for a frame.
#![tactic(auto)]

pub mod storing;
