// Cases of literals: a line has a text, a place in it, and what stands there.
use cases::line;
use number::bits::to_bits;
use number::decimal;
use number::decimal::Decimal;
use reports::case::Case;
use reports::{case, report};
use std::io::Read;

// What stands at a place, by the line's columns: 0 for nothing, 1 for a number or 2 for one that is too
// long, its end, its digits, its places, its value, and its value with a minus.
type Answer = [u64; 6];

const LINE: usize = 177;

const TEXT: usize = 40;

fn found(text: &[u8], at: usize) -> Answer {
    match decimal::read(text, at) {
        Decimal::Nothing => [0; 6],
        Decimal::Number {
            end,
            digits,
            places,
        } => [
            1,
            end as u64,
            digits,
            u64::from(places),
            to_bits(decimal::value(false, digits, places)),
            to_bits(decimal::value(true, digits, places)),
        ],
        Decimal::TooLong { end } => [2, end as u64, 0, 0, 0, 0],
    }
}

fn expected(line: &[u8]) -> Answer {
    [
        line::number(line, 75, 91),
        line::number(line, 92, 108),
        line::number(line, 109, 125),
        line::number(line, 126, 142),
        line::number(line, 143, 159),
        line::number(line, 160, 176),
    ]
}

fn print(rt: &impl Print, answer: Answer) {
    for column in answer {
        let _ = print!(rt; " {column:016x}");
    }
}

// The text's field and eight words: the text's length, the place, and the answer.
fn agrees(case: &Case<'_, impl Print>) -> Option<bool> {
    let form = b"???????????????????????????????????????? \
                 hhhhhhhhhhhhhhhh hhhhhhhhhhhhhhhh hhhhhhhhhhhhhhhh hhhhhhhhhhhhhhhh \
                 hhhhhhhhhhhhhhhh hhhhhhhhhhhhhhhh hhhhhhhhhhhhhhhh hhhhhhhhhhhhhhhh\n";
    let length = line::number(case.line, 41, 57) as usize;
    if !line::fits(case.line, form) | (TEXT < length) {
        return None;
    }
    let text = case.line.get(..length)?;
    let at = line::number(case.line, 58, 74);
    Some(text_agrees(case, text, at))
}

fn text_agrees(case: &Case<'_, impl Print>, text: &[u8], at: u64) -> bool {
    let Case { rt, name, line } = *case;
    let wanted = expected(line);
    let got = found(text, at as usize);
    if got == wanted {
        return true;
    }
    report::text(rt, name);
    report::text(rt, b" text ");
    report::text(rt, text);
    let _ = print!(rt; " at {at:016x} expected");
    print(rt, wanted);
    let _ = print!(rt; " got");
    print(rt, got);
    let _ = println!(rt; "");
    false
}

pub(crate) fn next(rt: &impl Print, file: &mut impl Read, name: &str) -> Option<bool> {
    case::next(
        rt,
        file,
        name.as_bytes(),
        &mut [0u8; LINE],
        |case, _| agrees(case),
    )
}
