// The values of a feature, each part on a line: the property's number, the kind, the index of the part,
// and a number's pattern, a string's two places, or 1 for true.
use cases::line;
use evaluator::values::{Values, value_at};
use kind::kind::{dimension, number};
use number::bits::to_bits;
use reports::case::Case;
use reports::{read, report};
use std::io::Read;
use value::value::Value;

const LINE: usize = 24;

// A number's pattern, and of any other value 1 for true.
fn pattern(v: Value, i: u8) -> u64 {
    if i < dimension(v.kind()) {
        return to_bits(v.component(i));
    }
    u64::from(v.is_true())
}

// A String lies in the feature.
fn part_agrees(part: &[u8], v: Value) -> bool {
    match v {
        Value::String(s) => {
            !s.literal
                & (line::number(part, 7, 15) == s.start as u64)
                & (line::number(part, 15, 23) == s.end as u64)
        }
        _ => {
            let i = line::low_byte(line::number(part, 5, 6));
            line::number(part, 7, 23) == pattern(v, i)
        }
    }
}

fn value_agrees(part: &[u8], v: Value) -> bool {
    line::fits(part, b"hh h h hhhhhhhhhhhhhhhh\n")
        & (line::number(part, 3, 4) == u64::from(number(v.kind())))
        & part_agrees(part, v)
}

fn one_agrees(
    case: &Case<'_, impl Print>,
    file: &mut impl Read,
    feature: &[u8],
    values: &Values,
) -> bool {
    let mut room = [0u8; LINE];
    let part = read::line(file, &mut room).unwrap_or(b"");
    let property = line::number(part, 0, 2) as usize;
    if value_agrees(part, value_at(values, property)) {
        return true;
    }
    case.text_difference(feature);
    report::text(case.rt, b"another value than ");
    report::text(case.rt, part);
    false
}

// All of them are compared, whatever comes of the first.
pub(crate) fn agree(
    case: &Case<'_, impl Print>,
    file: &mut impl Read,
    feature: &[u8],
    values: &Values,
) -> bool {
    let mut same = true;
    for _ in 0..line::number(case.line, 35, 37) {
        same = one_agrees(case, file, feature, values) & same;
    }
    same
}
