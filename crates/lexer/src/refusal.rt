// What is refused: why, by page 01's table, and a place in the text.
ghost use Rattle.std.specs.Prelude.{◌≡◌};
ghost use Rattle.lexer.specs.Refusal.{reason_number};

// The rows of page 01's table of refusals, in its order.
#[derive(Clone, Copy, Debug, PartialEq, Eq)]
pub enum Reason {
    // A text is longer than it may be, or there are too many features.
    Size = 1,
    // What begins no token.
    Token,
    // Too many round brackets open at once.
    Brackets,
    Grammar,
    // The tree is too high.
    Height,
    // An unknown function, member or colour word.
    Name,
    // Kinds, or a count of arguments.
    Kinds,
    // A line of a head.
    Line,
    // A feature's word, count of fields, or field.
    Feature,
    // Too little room is lent.
    Room,
}

#[derive(Clone, Copy, Debug, PartialEq, Eq)]
pub struct Refusal {
    pub reason: Reason,
    pub place: usize,
}

// Its number in the table.
impl From<Reason> for u8 {
    ghost from_gives = { λ reason n. n ≡ reason_number reason };

    fn from(reason: Reason) -> u8 {
        reason as u8
    }
}
