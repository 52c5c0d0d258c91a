// The names of a head, each on a line: its number, where it lies in the head, and the set of its kinds.
// Where it lies is in no answer: it shows in the numbers that variables have in the trees.
use cases::line;
use plan::layout::{Plan, SETS, UNDECLARED};
use plan::numbers::number_at;
use reports::case::Case;
use reports::{read, report};
use std::io::Read;

const LINE: usize = 16;

fn set_agrees(found: &[u8], plan: &Plan) -> bool {
    let number = line::number(found, 0, 2) as usize;
    if number < UNDECLARED {
        return line::fits(found, b"hh hhhh hhhh hh\n")
            & (line::number(found, 13, 15) == number_at(plan, SETS + number) as u64);
    }
    false
}

fn one_agrees(case: &Case<'_, impl Print>, file: &mut impl Read, head: &[u8], plan: &Plan) -> bool {
    let mut room = [0u8; LINE];
    let found = read::line(file, &mut room).unwrap_or(b"");
    if set_agrees(found, plan) {
        return true;
    }
    case.text_difference(head);
    report::text(case.rt, b"another name than ");
    report::text(case.rt, found);
    false
}

// Those of properties, and then those of defines. All are compared, whatever comes of the first.
pub(crate) fn agree(
    case: &Case<'_, impl Print>,
    file: &mut impl Read,
    head: &[u8],
    plan: &Plan,
) -> bool {
    let properties = line::number(case.line, 22, 24);
    let defines = line::number(case.line, 25, 27);
    let mut same = true;
    for _ in 0..properties.saturating_add(defines) {
        same = one_agrees(case, file, head, plan) & same;
    }
    same
}
