// The tokens of an expression with their places: page 01, "Tokens and grammar". What begins no token
// is refused (2), and so is the 33rd round bracket open at once (3).
#![tactic(auto)]

pub mod bytes;
pub mod punctuator;
pub mod refusal;
pub mod scan;
pub mod token;
pub mod word;
