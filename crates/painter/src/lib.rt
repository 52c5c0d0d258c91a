// The painter: a style's head and a feature's line, and the line that is written for it.
#![tactic(auto)]

pub mod answer;
pub mod apply;
mod draw;
pub mod given;
pub mod paint;
pub mod print;
