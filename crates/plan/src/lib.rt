// How what a head gives lies in flat arrays, and how many of each thing there may be.
#![tactic(auto)]

pub mod layout;
pub mod numbers;
