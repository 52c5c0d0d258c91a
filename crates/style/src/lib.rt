// Heads: the lines that declare the properties and say the style. A line is first an item, which is then
// judged; the trees of the expressions lie in a lent room, beside their texts.
#![tactic(auto)]

pub mod check;
mod entry;
mod expression;
pub mod head;
mod item;
mod rows;
