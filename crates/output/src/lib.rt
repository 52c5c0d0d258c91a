// Lines of the output.
#![tactic(auto)]

pub mod line;
pub mod page;
