// Text of tab-parted fields: reading fields and numbers, and writing them.
#![tactic(auto)]

pub mod fields;
pub mod letters;
pub mod numbers;
pub mod whole;
pub mod writer;
