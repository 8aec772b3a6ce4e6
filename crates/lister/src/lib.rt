// What a step of the waiting rule is made of.
#![tactic(auto)]

pub mod choosing;
pub mod listing;
pub mod waiting;
