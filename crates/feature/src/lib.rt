// Features: a line with a field for each property of a schema, and the values that the fields give.
#![tactic(auto)]

pub mod feature;
mod field;
mod numeral;
