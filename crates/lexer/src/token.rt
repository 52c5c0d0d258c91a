// The token at a place.
ghost use Rattle.std.specs.Prelude.{◌≡◌, ◌<◌, suc, length, get_or, drop};
ghost use Rattle.lexer.specs.Token.{lexeme_at, other_at, string_at, variable_at, word_at, punctuator_at};

use crate::bytes::{Class, has_byte, is_name_length, is_quote, is_word_start, run_end};
use crate::punctuator::spelled_at;
use crate::word::word_number;
use number::decimal::{Decimal, read};

#[derive(Clone, Copy, Debug, PartialEq, Eq)]
pub enum Token {
    // The whole number of its digits, of which `places` stand after the point.
    Number { digits: u64, places: u8 },
    // Its text lies between its quotes.
    String,
    // Its name lies between `${` and `}`.
    Variable,
    // By its number in `word`.
    Word(u8),
    // By its number in `punctuator`.
    Punctuator(u8),
}

// What stands at a place, from `at` up to `end`. Each of the three has its own next step: a token is taken, what
// begins none is refused, and at the end a reader is done.
#[derive(Clone, Copy, Debug, PartialEq, Eq)]
pub enum Lexeme {
    Found { token: Token, at: usize, end: usize },
    Bad { at: usize, end: usize },
    End,
}

// A text and a place in it go together here and stay two parameters: what is answered are places in the
// whole text, which the text's rest by itself would not tell.

// The string that a quote at a place opens.
fn string_at(text: &[u8], at: usize, quote: u8) -> Lexeme
    requires { at < length text.now }
    ensures { result ≡ string_at at quote (drop (suc at) text.now) }
{
    let end = run_end(text, at + 1, Class::Inside(quote));
    if has_byte(text, end, quote) {
        Lexeme::Found {
            token: Token::String,
            at,
            end: end + 1,
        }
    } else {
        Lexeme::Bad { at, end: at + 1 }
    }
}

// The variable whose `$` stands at a place.
fn variable_at(text: &[u8], at: usize) -> Lexeme
    requires { at < length text.now }
    ensures { result ≡ variable_at at (drop (suc at) text.now) }
{
    if has_byte(text, at + 1, b'{') {
        let name = at + 2;
        let end = run_end(text, name, Class::Name);
        if is_name_length(end - name) && has_byte(text, end, b'}') {
            return Lexeme::Found {
                token: Token::Variable,
                at,
                end: end + 1,
            };
        }
    }
    Lexeme::Bad { at, end: at + 1 }
}

// The word that begins at a place.
fn word_at(text: &[u8], at: usize) -> Lexeme
    requires { at < length text.now }
    ensures { result ≡ word_at at (drop at text.now) }
{
    let end = run_end(text, at, Class::Name);
    Lexeme::Found {
        token: Token::Word(word_number(&text[at..end])),
        at,
        end,
    }
}

// The punctuator at a place, or what is refused there.
fn punctuator_at(text: &[u8], at: usize) -> Lexeme
    requires { at < length text.now }
    ensures { result ≡ punctuator_at at (drop at text.now) }
{
    let (number, length) = spelled_at(text, at);
    let end = at + length;
    match number {
        Some(number) => Lexeme::Found {
            token: Token::Punctuator(number),
            at,
            end,
        },
        None => Lexeme::Bad { at, end },
    }
}

// What stands at a place where no number does.
fn other_at(text: &[u8], at: usize) -> Lexeme
    requires { at < length text.now }
    ensures { result ≡ other_at at (get_or text.now at 0) (drop (suc at) text.now) }
{
    let b = text[at];
    if is_quote(b) {
        string_at(text, at, b)
    } else if b == b'$' {
        variable_at(text, at)
    } else if is_word_start(b) {
        word_at(text, at)
    } else {
        punctuator_at(text, at)
    }
}

// What stands at a place, after spaces. The end of one token is where the next is looked for.
pub fn token_at(text: &[u8], from: usize) -> Lexeme
    ensures { result ≡ lexeme_at text.now from }
{
    let at = run_end(text, from, Class::Space);
    if text.len() <= at {
        return Lexeme::End;
    }
    match read(text, at) {
        Decimal::Number {
            end,
            digits,
            places,
        } => Lexeme::Found {
            token: Token::Number { digits, places },
            at,
            end,
        },
        Decimal::TooLong { end } => Lexeme::Bad { at, end },
        Decimal::Nothing => other_at(text, at),
    }
}
