// The grammar of expressions: the tree of a text, or why it is refused.
#![tactic(auto)]

pub mod height;
pub mod judge;
pub mod names;
mod parse;
mod symbol;
