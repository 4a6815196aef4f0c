// The sections of an image file: where each stands (document 01, "Image file").
#![tactic(auto)]

pub mod sizes;
