// Cases of what an operation gives for kinds: a line has the operation, how many operands there
// are, the kinds of all but the last, and what is given for each kind of the last.
ghost use Rattle.std.specs.Prelude.{◌≤◌};

use crate::kinds::KINDS;
use crate::{kinds, operations};
use cases::line;
use kind::kind::{Kind, number};
use kind::operation::Operation;
use kind::rule::rule;
use reports::case::Case;
use reports::report;

pub(crate) const FORM: &[u8; 17] = b"hhhhhhh ????????\n";

// One more than any operation takes.
const MOST_OPERANDS: usize = 5;

// The kinds of a line are those of all operands but the last.
fn given(operation: Operation, count: usize, kinds: &[Kind; 4], last: Kind) -> Option<Kind>
    requires { count ≤ MOST_OPERANDS }
{
    let before = count.saturating_sub(1);
    let mut operands = [last; MOST_OPERANDS];
    operands[..before].copy_from_slice(&kinds[..before]);
    rule(operation, &operands[..count])
}

// What is given is the kind's digit, or - for a fault.
fn last_agrees(case: &Case<'_, impl Print>, got: Option<Kind>, last: Kind) -> bool {
    let got = got.map_or(b'-', |kind| kinds::digit(kind));
    if got == line::byte(case.line, 8 + number(last) as usize) {
        return true;
    }
    case.difference();
    report::text(case.rt, b"got ");
    report::text(case.rt, &[got]);
    report::text(case.rt, b" for a last operand of kind ");
    report::text(case.rt, &[kinds::digit(last), b'\n']);
    false
}

// All kinds of the last operand are compared, whatever comes of the first. Without operands the first
// of the eight counts.
pub(crate) fn agrees(case: &Case<'_, impl Print>) -> Option<bool> {
    let line = case.line;
    let operation = operations::of_line(line)?;
    let kinds = [
        kinds::of_line(line, 3)?,
        kinds::of_line(line, 4)?,
        kinds::of_line(line, 5)?,
        kinds::of_line(line, 6)?,
    ];
    let count = line::number(line, 2, 3) as usize;
    if MOST_OPERANDS < count {
        return None;
    }
    let lasts = if count == 0 { 1 } else { KINDS.len() };
    let mut same = true;
    for last in KINDS.into_iter().take(lasts) {
        same = last_agrees(case, given(operation, count, &kinds, last), last) & same;
    }
    Some(same)
}
