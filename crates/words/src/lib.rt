// Tables of words, as function names and the words of types: one text, in which each word is ended by a byte
// that no word has. The number of a word is its place in the table.
#![tactic(auto)]

pub mod table;
