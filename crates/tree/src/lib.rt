// Fault trees of light stations: lines that are parts or gates, each with a name.
#![tactic(auto)]

pub mod borrowed;
pub mod line;
pub mod line_set;
pub mod station_tree;
