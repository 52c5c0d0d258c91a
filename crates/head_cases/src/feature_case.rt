// A case of a feature: a line, the head whose properties it has, its text, and the parts of its
// values.
use crate::answer::Answer;
use crate::rooms::{SLOTS, UNUSED};
use crate::{answer, rooms, values};
use cases::line;
use plan::layout::{PLAN, Plan, UNDECLARED};
use reports::case::Case;
use reports::{case, read};
use std::io::Read;
use style::head::compile;
use value::value::Value;

const LINE: usize = 38;

// What a value is that is not stored.
const OLD: Value = Value::Number(0.625);

fn wanted(line: &[u8]) -> Answer {
    Answer {
        number: line::number(line, 27, 28),
        line: 0,
        place: line::number(line, 29, 34),
    }
}

// A refused feature has no values to compare.
fn read_agrees(
    case: &Case<'_, impl Print>,
    file: &mut impl Read,
    text: &[u8],
    plan: &Plan,
) -> bool {
    let mut values = [OLD; UNDECLARED];
    let number = line::number(case.line, 5, 21) as usize;
    let read = feature::feature::read(plan, number, text, &mut values);
    answer::agrees(case, text, wanted(case.line), answer::of_feature(read))
        & values::agree(case, file, text, &values)
}

// A head that is refused is no case of this program. What belongs to the feature is read all the same.
fn agrees(case: &Case<'_, impl Print>, file: &mut impl Read) -> Option<bool> {
    if !line::fits(case.line, b"hhhh hhhhhhhhhhhhhhhh hhhh h hhhhh hh\n") {
        return None;
    }
    let mut head = [0u8; rooms::TEXT];
    let mut text = [0u8; rooms::TEXT];
    let head = read::text(file, &mut head, line::number(case.line, 0, 4) as usize)?;
    let text = read::text(file, &mut text, line::number(case.line, 22, 26) as usize)?;
    let mut plan = [0u16; PLAN];
    let mut slots = [UNUSED; SLOTS];
    let compiled = compile(head, &mut plan, &mut slots);
    let same = read_agrees(case, file, text, &plan);
    if compiled.is_ok() { Some(same) } else { None }
}

pub(crate) fn next(rt: &impl Print, file: &mut impl Read, name: &str) -> Option<bool> {
    case::next(
        rt,
        file,
        name.as_bytes(),
        &mut [0u8; LINE],
        |case, file| agrees(case, file),
    )
}
