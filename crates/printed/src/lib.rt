// Trees printed as text, for the programs that compare trees with those of a file.
#![tactic(auto)]

pub mod shown;
mod word;
