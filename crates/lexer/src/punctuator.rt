// Punctuators (operators, brackets, the comma and the dot), and the operators that are refused.
ghost use Rattle.std.specs.Prelude.{◌≡◌, ◌∷◌, [], drop};
ghost use Rattle.lexer.specs.Punctuator.{spelled_by};

use crate::bytes::byte_after;

// A punctuator's number is its place in page 01's list, where binary operators stand by precedence, lowest first.
// Numbers and no enum: a slot of a tree, a symbol of the grammar and its levels go by them.
pub const QUESTION: u8 = 0;

pub const COLON: u8 = 1;

pub const OR: u8 = 2;

pub const AND: u8 = 3;

pub const EQUAL: u8 = 4;

pub const UNEQUAL: u8 = 5;

pub const LESS: u8 = 6;

pub const LESS_OR_EQUAL: u8 = 7;

pub const GREATER: u8 = 8;

pub const GREATER_OR_EQUAL: u8 = 9;

pub const PLUS: u8 = 10;

pub const MINUS: u8 = 11;

pub const TIMES: u8 = 12;

pub const DIVIDE: u8 = 13;

pub const REMAINDER: u8 = 14;

pub const NOT: u8 = 15;

pub const OPEN_ROUND: u8 = 16;

pub const CLOSE_ROUND: u8 = 17;

pub const OPEN_SQUARE: u8 = 18;

pub const CLOSE_SQUARE: u8 = 19;

pub const COMMA: u8 = 20;

pub const DOT: u8 = 21;

// The longest spelling that begins with a byte `b`, where `c` and `d` follow it.
fn spelled_by(b: u8, c: u8, d: u8) -> (Option<u8>, usize)
    ensures { result ≡ spelled_by (b ∷ c ∷ d ∷ []) }
{
    let equals = c == b'=';
    match b {
        b'?' => (Some(QUESTION), 1),
        b':' => (Some(COLON), 1),
        b'|' if c == b => (Some(OR), 2),
        b'&' if c == b => (Some(AND), 2),
        b'=' if equals && d == b'=' => (Some(EQUAL), 3),
        b'=' if equals => (None, 2),
        b'=' if c == b'~' => (None, 2),
        b'!' if equals && d == b'=' => (Some(UNEQUAL), 3),
        b'!' if equals => (None, 2),
        b'!' => (Some(NOT), 1),
        b'<' if equals => (Some(LESS_OR_EQUAL), 2),
        b'<' => (Some(LESS), 1),
        b'>' if equals => (Some(GREATER_OR_EQUAL), 2),
        b'>' => (Some(GREATER), 1),
        b'+' if c == b => (None, 2),
        b'+' => (Some(PLUS), 1),
        b'-' if c == b => (None, 2),
        b'-' => (Some(MINUS), 1),
        b'*' => (Some(TIMES), 1),
        b'/' => (Some(DIVIDE), 1),
        b'%' => (Some(REMAINDER), 1),
        b'(' => (Some(OPEN_ROUND), 1),
        b')' => (Some(CLOSE_ROUND), 1),
        b'[' => (Some(OPEN_SQUARE), 1),
        b']' => (Some(CLOSE_SQUARE), 1),
        b',' => (Some(COMMA), 1),
        b'.' => (Some(DOT), 1),
        _ => (None, 1),
    }
}

// The longest spelling at a place: its number, none where it is refused, and its length. A byte that begins no
// spelling is refused by itself.
pub(crate) fn spelled_at(text: &[u8], at: usize) -> (Option<u8>, usize)
    ensures { result ≡ spelled_by (drop at text.now) }
{
    spelled_by(
        byte_after(text, at, 0),
        byte_after(text, at, 1),
        byte_after(text, at, 2),
    )
}
