// Words, of which some are literals.
ghost use Rattle.std.specs.Prelude.{◌≡◌};
ghost use Rattle.lexer.specs.Bytes.{place_in};
ghost use Rattle.lexer.specs.Token.{literal_words};

// A literal word's number is its place in page 01's list. Numbers and no enum: a symbol of the grammar and a literal's
// slot in a tree go by them.
pub const TRUE: u8 = 0;

pub const FALSE: u8 = 1;

pub const NULL: u8 = 2;

pub const UNDEFINED: u8 = 3;

pub const NAN: u8 = 4;

pub const INFINITY: u8 = 5;

// Any other word.
pub const OTHER: u8 = 6;

// The number of a word.
pub(crate) fn word_number(word: &[u8]) -> u8
    ensures { result ≡ place_in literal_words word.now }
{
    if word == b"true".as_slice() {
        TRUE
    } else if word == b"false".as_slice() {
        FALSE
    } else if word == b"null".as_slice() {
        NULL
    } else if word == b"undefined".as_slice() {
        UNDEFINED
    } else if word == b"NaN".as_slice() {
        NAN
    } else if word == b"Infinity".as_slice() {
        INFINITY
    } else {
        OTHER
    }
}
