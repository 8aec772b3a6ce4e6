// Kinds of station tree besides the one that is read from a file.
#![tactic(auto)]

pub mod faults;
pub mod fixing;
pub mod lantern;
