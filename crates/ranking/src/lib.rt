// What makes one set of parts come before another: the charges of parts, and the weights of sets.
#![tactic(auto)]

pub mod charge;
pub mod kinds;
pub mod order;
pub mod pairs;
pub mod set_order;
pub mod terms;
pub mod weight;
