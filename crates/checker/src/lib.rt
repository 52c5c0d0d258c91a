// Names resolved to numbers, and the kinds of an expression: page 01's refusal 7.
#![tactic(auto)]

pub mod check;
pub mod name;
pub mod operator;
pub mod property;
