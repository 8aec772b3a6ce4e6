// From an order and a station file to what the program writes.
#![tactic(auto)]

pub mod answer;
pub mod faults;
pub mod order;
pub mod refused;
pub mod sheet;
