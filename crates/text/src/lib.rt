// A text's lines, a line's fields, names, the words of lines, types and flags, and where a head ends.
#![tactic(auto)]

pub mod head;
pub mod name;
pub mod part;
pub mod word;
