// The values of literals, which are read from the style's text.
ghost use Rattle.std.specs.Prelude.{◌≡◌, ◌+◌};
ghost use Rattle.lexer.specs.Token.{lexeme_at};
ghost use Rattle.evaluator.specs.Literal.{number_in, span_in, literal_at};

use lexer::token::{Lexeme, Token, token_at};
use number::decimal;
use value::value::{NOWHERE, Span, Value};

// The number at a place, or 0.
fn number_at(style: &[u8], at: usize) -> f64
    ensures { result ≡ number_in (lexeme_at style.now at) }
{
    match token_at(style, at) {
        Lexeme::Found {
            token: Token::Number { digits, places },
            ..
        } => decimal::value(false, digits, places),
        _ => 0.0,
    }
}

// Where the text of the string at a place lies, between its quotes.
fn span_at(style: &[u8], at: usize) -> Span
    ensures { result ≡ span_in (lexeme_at style.now at) }
{
    match token_at(style, at) {
        Lexeme::Found {
            token: Token::String,
            at,
            end,
        } => Span {
            literal: true,
            start: at + 1,
            end: end - 1,
        },
        _ => NOWHERE,
    }
}

// The literal at a place of the style, by its form: a number, a string, or a word. Forms are numbers, as
// they lie in the slots of a tree.
#[tactic(auto, unfolding(crate::specs::Literal::literal_at))]
fn literal_at(style: &[u8], at: usize, form: usize) -> Value
    ensures { result ≡ literal_at style.now at form }
{
    match form {
        0 => Value::Number(number_at(style, at)),
        1 => Value::String(span_at(style, at)),
        2 => Value::Boolean(true),
        3 => Value::Boolean(false),
        4 => Value::Null,
        5 => Value::Undefined,
        6 => Value::Number(f64::NAN),
        7 => Value::Number(f64::INFINITY),
        _ => Value::Undefined,
    }
}

// The literal at a place of an expression that begins at `base`; past the text's end there is none.
pub(crate) fn literal(style: &[u8], base: usize, at: usize, form: usize) -> Value
    ensures { result ≡ literal_at style.now (base + at) form }
{
    let place = base.saturating_add(at).min(style.len());
    literal_at(style, place, form)
}
