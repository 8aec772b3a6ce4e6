// Minimal cut sets of a station tree, and the waiting rule by which they are listed in order.
#![tactic(auto)]

pub mod cut;
pub mod search;
pub mod way;
