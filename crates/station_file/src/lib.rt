// Station files: the reader, the tree that it fills, and why a file is refused.
#![tactic(auto)]

pub mod faults;
mod letters;
mod names;
pub mod read_tree;
pub mod reader;
mod record;
