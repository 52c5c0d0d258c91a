// The words that lines begin with, and those of types and flags.
ghost use Rattle.std.specs.Prelude.{◌≡◌};
ghost use Rattle.lexer.specs.Bytes.{place_in};
ghost use Rattle.text.specs.Word.{is_feature_word, line_of, type_of, flag_words, flags_of};

use kind::kind::Kind;
use words::table::number_in;

// What a line is by its first field.
#[derive(Clone, Copy, Debug, PartialEq, Eq)]
pub enum Line {
    Prop,
    Define,
    Show,
    Color,
    Cond,
    Feat,
}

// Whether a property may be absent and may be null.
#[derive(Clone, Copy, Debug, PartialEq, Eq)]
pub struct Flags {
    pub absent: bool,
    pub null: bool,
}

// The lines of a head, the types and the flags, each in the order of its words. The words stand in a
// table and not as patterns of a match: that would leave a return open for each byte of each word.
const LINES: [Line; 5] = [
    Line::Prop,
    Line::Define,
    Line::Show,
    Line::Color,
    Line::Cond,
];

const TYPES: [Kind; 6] = [
    Kind::Boolean,
    Kind::Number,
    Kind::String,
    Kind::Vec2,
    Kind::Vec3,
    Kind::Vec4,
];

const FLAGS: [Flags; 4] = [
    Flags {
        absent: false,
        null: false,
    },
    Flags {
        absent: true,
        null: false,
    },
    Flags {
        absent: false,
        null: true,
    },
    Flags {
        absent: true,
        null: true,
    },
];

// Whether a word is that of a feature's line. Every such line is asked, so it is no table's word.
pub fn is_feature(word: &[u8]) -> bool
    ensures { result ≡ is_feature_word word.now }
{
    word == b"feat".as_slice()
}

pub fn line_of(word: &[u8]) -> Option<Line>
    ensures { result ≡ line_of word.now }
{
    if is_feature(word) {
        return Some(Line::Feat);
    }
    let number = number_in(b"prop define show color cond", word, false);
    LINES.get(number).copied()
}

pub fn type_of(word: &[u8]) -> Option<Kind>
    ensures { result ≡ type_of word.now }
{
    let number = number_in(b"Boolean Number String vec2 vec3 vec4", word, false);
    TYPES.get(number).copied()
}

// The place of a word in the list of flags, or 4. The words of a table have letters, so `-` stands
// apart.
fn flags_number(word: &[u8]) -> usize
    ensures { result ≡ place_in flag_words word.now }
{
    if word == b"-".as_slice() {
        0
    } else {
        1 + number_in(b"a n an", word, false)
    }
}

pub fn flags_of(word: &[u8]) -> Option<Flags>
    ensures { result ≡ flags_of word.now }
{
    FLAGS.get(flags_number(word)).copied()
}
