// A case of a head: a line, the head, its names and its expressions.
use crate::answer::Answer;
use crate::rooms::{SLOTS, UNUSED};
use crate::{answer, expressions, names, rooms};
use cases::line;
use plan::layout::{COLOURS, CONDITIONS, DEFINES, PLAN, PROPERTIES, Plan, SHOWS};
use plan::numbers::number_at;
use reports::case::Case;
use reports::{case, read};
use std::io::Read;
use style::check::check;
use style::head::compile;

const LINE: usize = 38;

fn wanted(line: &[u8]) -> Answer {
    Answer {
        number: line::number(line, 10, 11),
        line: line::number(line, 12, 16),
        place: line::number(line, 17, 21),
    }
}

// How many lines there are of each word.
fn counts_agree(case: &Case<'_, impl Print>, head: &[u8], plan: &Plan) -> bool {
    let wanted = [
        line::number(case.line, 22, 24),
        line::number(case.line, 25, 27),
        line::number(case.line, 28, 30),
        line::number(case.line, 31, 32),
        line::number(case.line, 33, 34),
    ];
    let got = [
        number_at(plan, PROPERTIES) as u64,
        number_at(plan, DEFINES) as u64,
        number_at(plan, CONDITIONS) as u64,
        number_at(plan, SHOWS) as u64,
        number_at(plan, COLOURS) as u64,
    ];
    if got == wanted {
        return true;
    }
    case.text_difference(head);
    let _ = println!(case.rt; "other counts of lines");
    false
}

fn check_agrees(case: &Case<'_, impl Print>, head: &[u8], slots: &mut [u16]) -> bool {
    let got = answer::of_head(check(head, slots));
    answer::agrees(case, head, wanted(case.line), got) & rooms::agree(case, head, slots, got.number)
}

// Of an accepted head the counts. A refused one leaves the plan as it was, and the room as a check does.
fn plan_agrees(
    case: &Case<'_, impl Print>,
    head: &[u8],
    slots: &[u16],
    plan: &Plan,
    number: u64,
) -> bool {
    if number == 0 {
        return counts_agree(case, head, plan);
    }
    rooms::agree(case, head, slots, number) & rooms::untouched(case, head, plan)
}

// Names and expressions are read in any case: a head that is to be refused has none.
fn compile_agrees(
    case: &Case<'_, impl Print>,
    file: &mut impl Read,
    head: &[u8],
    slots: &mut [u16],
) -> bool {
    let mut plan = [UNUSED; PLAN];
    let got = answer::of_head(compile(head, &mut plan, slots));
    answer::agrees(case, head, wanted(case.line), got)
        & plan_agrees(case, head, slots, &plan, got.number)
        & names::agree(case, file, head, &plan)
        & expressions::agree(case, file, head, slots, &plan)
}

// Checking and compiling each get room that is not zero.
fn agrees(case: &Case<'_, impl Print>, file: &mut impl Read) -> Option<bool> {
    if !line::fits(case.line, b"hhhh hhhh h hhhh hhhh hh hh hh h h hh\n") {
        return None;
    }
    let mut room = [0u8; rooms::HEAD];
    let head = read::text(file, &mut room, line::number(case.line, 5, 9) as usize)?;
    let size = line::number(case.line, 0, 4) as usize;
    let mut first = [UNUSED; SLOTS];
    let mut second = [UNUSED; SLOTS];
    let (first, second) = (first.get_mut(..size)?, second.get_mut(..size)?);
    Some(check_agrees(case, head, first) & compile_agrees(case, file, head, second))
}

pub(crate) fn next(rt: &impl Print, file: &mut impl Read, name: &str) -> Option<bool> {
    case::next(
        rt,
        file,
        name.as_bytes(),
        &mut [0u8; LINE],
        |case, file| agrees(case, file),
    )
}
