// For the programs that compare: bytes from digits, the parts of a text, and the lines of a report.
#![tactic(auto)]

pub mod digits;
pub mod parts;
pub mod report;
