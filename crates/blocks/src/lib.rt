// An input in blocks, however it is cut: where its head ends, and the lines of its features.
#![tactic(auto)]

pub mod features;
pub mod opening;
