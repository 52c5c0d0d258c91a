// Colours and their words: page 01, "Kinds and meaning".
#![tactic(auto)]

pub mod colour;
pub mod text;
