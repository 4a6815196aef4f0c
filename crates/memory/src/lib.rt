// What the tag holds, read: the sizes of its memory, its record, its pages and the settings in them. Each function is one equation with a definition.
#![tactic(auto)]

pub mod pages;
pub mod record;
pub mod settings;
pub mod sizes;
