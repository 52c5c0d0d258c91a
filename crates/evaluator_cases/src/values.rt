// What an expression comes to, as the files have it: a fault is a -, a value its kind's digit and
// then the patterns of its numbers, a Boolean's being 0 or 1, or the bytes of its string.
use crate::kinds;
use cases::line;
use kind::kind::dimension;
use lexer::bytes::same_part;
use number::bits::to_bits;
use reports::report;
use value::texts::Texts;
use value::value::{Span, Value};

// The text that a String lies in.
fn text_of<'a>(texts: Texts<'a>, s: Span) -> &'a [u8] {
    if s.literal {
        texts.style
    } else {
        texts.feature
    }
}

// How many patterns it has.
fn size(v: Value) -> u8 {
    match v {
        Value::Boolean(_) => 1,
        _ => dimension(v.kind()),
    }
}

// One of them, and 0 behind the last.
fn pattern(v: Value, i: u8) -> u64 {
    if i < dimension(v.kind()) {
        return to_bits(v.component(i));
    }
    u64::from((i == 0) & v.is_true())
}

fn patterns(v: Value) -> [u64; 4] {
    [pattern(v, 0), pattern(v, 1), pattern(v, 2), pattern(v, 3)]
}

// ---- comparing

fn patterns_agree(wanted: &[u8], v: Value) -> bool {
    let columns = [
        line::number(wanted, 1, 17),
        line::number(wanted, 17, 33),
        line::number(wanted, 33, 49),
        line::number(wanted, 49, 65),
    ];
    (wanted.len() == 1 + 16 * (size(v) as usize)) & (columns == patterns(v))
}

fn parts_agree(texts: Texts<'_>, wanted: &[u8], v: Value) -> bool {
    match v {
        Value::String(s) => {
            same_part(wanted, 1, wanted.len(), text_of(texts, s), s.start, s.end)
        }
        _ => patterns_agree(wanted, v),
    }
}

pub(crate) fn agree(texts: Texts<'_>, wanted: &[u8], outcome: Option<Value>) -> bool {
    let mark = line::byte(wanted, 0);
    match outcome {
        None => mark == b'-',
        Some(v) => (mark == kinds::digit(v.kind())) & parts_agree(texts, wanted, v),
    }
}

// ---- printing

// A String that does not lie in its text has no bytes.
fn print_value(rt: &impl Print, texts: Texts<'_>, v: Value) {
    report::text(rt, &[kinds::digit(v.kind())]);
    match v {
        Value::String(s) => {
            report::text(rt, text_of(texts, s).get(s.start..s.end).unwrap_or(b""));
        }
        _ => {
            for pattern in patterns(v) {
                let _ = print!(rt; " {pattern:016x}");
            }
        }
    }
}

// What came, on a line of its own.
pub(crate) fn print(rt: &impl Print, texts: Texts<'_>, outcome: Option<Value>) {
    report::text(rt, b"\ngot ");
    match outcome {
        None => report::text(rt, b"-"),
        Some(v) => print_value(rt, texts, v),
    }
    report::text(rt, b"\n");
}
