// Numbers as the painter reads them, works them out and turns them into colour bytes: page 01,
// "Tokens and grammar" and "Kinds and meaning". Every number is a binary64, each operation rounds
// once, and every NaN is one NaN.
#![tactic(auto)]

pub mod arithmetic;
pub mod bits;
pub mod colour;
pub mod decimal;
pub mod rounding;
mod units;
