// What stands at a place of a text, as the lexer finds it and as a file expects it.
use crate::difference;
use cases::line;
use lexer::token;
use lexer::token::{Lexeme, Token};
use reports::case::Case;
use reports::report;
use std::io::Read;

// The kind is a line's letter: N number, S string, V variable, W word, P punctuator, B bad, E end, and ?
// for a line that is malformed. The value: a number's digits after the point, or a place in a list.
#[derive(Clone, Copy, Default, PartialEq, Eq, Drop)]
pub(crate) struct Answer {
    kind: u8,
    value: u64,
    at: u64,
    pub(crate) end: u64,
    digits: u64,
}

const LINE: usize = 13;

const DIGITS_LINE: usize = 17;

// A token from one place up to another.
fn of_token(token: Token, at: usize, end: usize) -> Answer {
    let (kind, value, digits) = match token {
        Token::Number { digits, places } => (b'N', places, digits),
        Token::String => (b'S', 0, 0),
        Token::Variable => (b'V', 0, 0),
        Token::Word(k) => (b'W', k, 0),
        Token::Punctuator(k) => (b'P', k, 0),
    };
    Answer {
        kind,
        value: u64::from(value),
        at: at as u64,
        end: end as u64,
        digits,
    }
}

fn found(text: &[u8], from: usize) -> Answer {
    match token::token_at(text, from) {
        Lexeme::Found { token, at, end } => of_token(token, at, end),
        Lexeme::Bad { at, end } => Answer {
            kind: b'B',
            at: at as u64,
            end: end as u64,
            ..Answer::default()
        },
        Lexeme::End => Answer {
            kind: b'E',
            ..Answer::default()
        },
    }
}

// None if a line is malformed. The whole number of a number's digits has a line of its own.
fn wanted(file: &mut impl Read) -> Option<Answer> {
    let mut room = [0u8; LINE];
    let line = reports::read::line(file, &mut room)?;
    if !line::fits(line, b"? hh hhh hhh\n") {
        return None;
    }
    let answer = Answer {
        kind: line::byte(line, 0),
        value: line::number(line, 2, 4),
        at: line::number(line, 5, 8),
        end: line::number(line, 9, 12),
        digits: 0,
    };
    if answer.kind != b'N' {
        return Some(answer);
    }
    let mut room = [0u8; DIGITS_LINE];
    let line = reports::read::line(file, &mut room)?;
    if !line::fits(line, b"hhhhhhhhhhhhhhhh\n") {
        return None;
    }
    Some(Answer {
        digits: line::number(line, 0, 16),
        ..answer
    })
}

pub(crate) fn read(file: &mut impl Read) -> Answer {
    wanted(file).unwrap_or(Answer {
        kind: b'?',
        ..Answer::default()
    })
}

// A kind may be any byte, so it is no character.
fn print(rt: &impl Print, label: &str, answer: Answer) {
    let Answer {
        kind,
        value,
        at,
        end,
        digits,
    } = answer;
    let _ = print!(rt; " {label} ");
    report::text(rt, &[kind]);
    let _ = print!(rt; " {value} {at} {end} {digits}");
}

// Whether the text has at a place what a file expects.
pub(crate) fn agrees(
    case: &Case<'_, impl Print>,
    text: &[u8],
    from: usize,
    wanted: Answer,
) -> bool {
    let got = found(text, from);
    if got == wanted {
        return true;
    }
    difference::front(case, text, from);
    print(case.rt, "expected", wanted);
    print(case.rt, "got", got);
    let _ = println!(case.rt; "");
    false
}
