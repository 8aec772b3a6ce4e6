// A pairing heap (Fredman, Sedgewick, Sleator and Tarjan, 1986) over nodes in a slice that the caller lends.
#![tactic(auto)]

pub mod heap;
mod linking;
pub mod node;
pub mod sorting;
