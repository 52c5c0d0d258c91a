// Sizes, rows and places of the flat arrays that are lent: where names lie, and what painting needs of
// a head.

// "32 properties; 16 defines; 16 `cond` lines".
pub const MOST_PROPERTIES: usize = 32;

pub const MOST_DEFINES: usize = 16;

pub const MOST_CONDITIONS: usize = 16;

// ---- names

// Names have numbers: properties from 0 on, defines behind the last that a property may have, and
// behind all of them an undeclared name.
pub const FIRST_DEFINE: usize = 32;

pub const UNDECLARED: usize = 48;

// Where names lie in a head: for each number the places of its start and of its end.
pub const NAMES: usize = 96;

pub type Names = [usize; NAMES];

// ---- the plan

// Expressions have rows: defines from 0 on, then `show`, `color`, and each condition with its colour
// behind it.
pub const SHOW: usize = 16;

pub const COLOUR: usize = 17;

pub const FIRST_CONDITION: usize = 18;

pub const EXPRESSIONS: usize = 50;

// How many lines of each word there are.
pub const PROPERTIES: usize = 0;

pub const DEFINES: usize = 1;

pub const SHOWS: usize = 2;

pub const COLOURS: usize = 3;

pub const CONDITIONS: usize = 4;

// Behind the counts the set of kinds of each name, by its number.
pub const SETS: usize = 5;

// Behind the sets the row of each expression: where it begins and ends in the head, and the root of its
// tree.
pub const ROWS: usize = 53;

pub const ROW: usize = 3;

pub const PLAN: usize = 203;

// What painting needs of a head. It is flat numbers and no struct, since callers in C will lend it.
pub type Plan = [u16; PLAN];
