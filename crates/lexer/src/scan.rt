// The first look at an expression: whether all of it is tokens (2), and no round bracket is one too
// many (3).
ghost use Rattle.std.specs.Prelude.{◌≡◌};
ghost use Rattle.lexer.specs.Scan.{bracket_of, scan_of, answer_of};
ghost use Rattle.lexer.specs.Inner.{next_open};

use crate::punctuator::{CLOSE_ROUND, OPEN_ROUND};
use crate::refusal::{Reason, Refusal};
use crate::token::{Lexeme, Token, token_at};

// What a token does to the round brackets that are open.
#[derive(Clone, Copy, Debug, PartialEq, Eq)]
enum Bracket {
    Opens,
    Closes,
    Neither,
}

const MOST_OPEN: usize = 32;

fn bracket_of(token: Token) -> Bracket
    ensures { result ≡ bracket_of token }
{
    match token {
        Token::Punctuator(OPEN_ROUND) => Bracket::Opens,
        Token::Punctuator(CLOSE_ROUND) => Bracket::Closes,
        _ => Bracket::Neither,
    }
}

// How many round brackets are open after a token, or the place of one too many. One that is closed where none
// is open changes nothing.
fn next_open(count: usize, token: Token, at: usize) -> Result<usize, Refusal>
    ensures { result ≡ next_open count token at }
{
    match bracket_of(token) {
        Bracket::Opens if MOST_OPEN <= count => Err(Refusal {
            reason: Reason::Brackets,
            place: at,
        }),
        Bracket::Opens => Ok(count + 1),
        Bracket::Closes => Ok(count.saturating_sub(1)),
        Bracket::Neither => Ok(count),
    }
}

// The first place of 2 in a text, else the place of the 33rd round bracket open at once. By places and
// not by an iterator of tokens, since a token is read from a place and the refusal answers one.
pub fn scan(text: &[u8]) -> Result<(), Refusal>
    ensures { answer_of result ≡ scan_of text.now }
{
    let mut from = 0;
    let mut open = Ok(0);
    loop {
        match token_at(text, from) {
            Lexeme::Found { token, at, end } => {
                if let Ok(count) = open {
                    open = next_open(count, token, at);
                }
                from = end;
            }
            Lexeme::Bad { at, .. } => {
                return Err(Refusal {
                    reason: Reason::Token,
                    place: at,
                });
            }
            Lexeme::End => {
                open?;
                return Ok(());
            }
        }
    }
}
