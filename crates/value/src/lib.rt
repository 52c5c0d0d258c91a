// Values and what operators, functions and picks make of them: page 01, "Kinds and meaning".
#![tactic(auto)]

pub mod apply;
pub mod equality;
mod make;
pub mod name;
mod operands;
pub mod scalar;
pub mod texts;
pub mod value;
