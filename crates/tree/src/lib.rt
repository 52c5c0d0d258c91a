// The tree of an expression, in slots that the caller lends: a slot for each byte. The parts of a
// node are indices into them and not boxes, since all memory is lent and nothing is allocated.
#![tactic(auto)]

pub mod node;
mod slots;
pub mod write;
