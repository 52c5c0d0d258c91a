// One case of a file: a line, the text that is judged, and its tree as it is printed.
use crate::judged;
use cases::line;
use reports::case::Case;
use reports::{case, read};
use std::io::Read;

const LINE: usize = 15;

fn agrees(case: &Case<'_, impl Print>, file: &mut impl Read) -> Option<bool> {
    if !line::fits(case.line, b"hhh h hhh hhhh\n") {
        return None;
    }
    let mut text = [0u8; read::MOST];
    let mut tree = [0u8; read::MOST];
    let text = read::text(file, &mut text, line::number(case.line, 0, 3) as usize)?;
    let tree = read::text(file, &mut tree, line::number(case.line, 10, 14) as usize)?;
    Some(judged::agrees(case, text, tree))
}

pub(crate) fn next(rt: &impl Print, file: &mut impl Read, name: &str) -> Option<bool> {
    case::next(
        rt,
        file,
        name.as_bytes(),
        &mut [0u8; LINE],
        |case, file| agrees(case, file),
    )
}
