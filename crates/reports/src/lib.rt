// What the programs share that read cases: the texts of a file, counting its cases, and what is
// written to standard output.
//
// What a file of the system gives and what standard output takes no contract can say. So `read`
// promises that it gives the next bytes of a reader whose bytes are known, as one over memory; `count`
// that it counts what the cases answer; and `report` what it answers and that the bytes lent to it
// stay, and not that they are written. A read that fails counts as the end of the file, and a write
// that fails is passed over.
#![tactic(auto)]

pub mod case;
pub mod count;
pub mod read;
pub mod report;
