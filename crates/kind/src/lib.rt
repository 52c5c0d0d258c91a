// Kinds, sets of kinds, and the kinds that operators and functions take and give: page 01, "Kinds and
// meaning". A kind is page 01's term for the dynamic type of a value.
#![tactic(auto)]

pub mod choice;
pub mod kind;
pub mod operation;
pub mod rule;
pub mod set;
