// What the programs share that read cases, ask a library and compare: the lines of a file, and how
// many cases differ. Reading and writing is left to them.
#![tactic(auto)]

pub mod line;
pub mod tally;
