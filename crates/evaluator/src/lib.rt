// What an expression comes to for a feature: page 01, "Kinds and meaning".
#![tactic(auto)]

pub mod evaluate;
mod literal;
pub mod need;
pub mod operation;
mod truth;
pub mod values;
