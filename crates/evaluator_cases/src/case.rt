// One case of a file: a line, the head that its expression and names lie in, the names, and the
// features that the expression is worked out for.
use crate::{expression, names};
use cases::line;
use plan::layout::{NAMES, PLAN};
use reports::case::Case;
use reports::{case, read};
use std::io::Read;

const LINE: usize = 32;

fn agrees(case: &Case<'_, impl Print>, file: &mut impl Read) -> Option<bool> {
    if !line::fits(case.line, b"hhhh hhh hhh hh h h h hhh hh hh\n") {
        return None;
    }
    let mut room = [0u8; read::MOST];
    let head = read::text(file, &mut room, line::number(case.line, 0, 4) as usize)?;
    let mut names = [0usize; NAMES];
    let mut plan = [0u16; PLAN];
    names::read(file, line::number(case.line, 13, 15), &mut names, &mut plan)?;
    expression::agrees(case, file, head, &names, &plan)
}

pub(crate) fn next(rt: &impl Print, file: &mut impl Read, name: &str) -> Option<bool> {
    case::next(
        rt,
        file,
        name.as_bytes(),
        &mut [0u8; LINE],
        |case, file| agrees(case, file),
    )
}
