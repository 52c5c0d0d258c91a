// Cases of whole texts: each token from the front up to the end or a bad one, and the verdict.
use crate::{difference, lexemes};
use cases::line;
use lexer::scan;
use reports::case::Case;
use std::io::Read;

pub(crate) const FORM: &[u8; 14] = b"hhh hhh h hhh\n";

// A refusal's number and place; both 0 for a text that is fine.
type Answer = (u64, u64);

fn found(text: &[u8]) -> Answer {
    match scan::scan(text) {
        Ok(()) => (0, 0),
        Err(refusal) => (u64::from(u8::from(refusal.reason)), refusal.place as u64),
    }
}

fn verdict_agrees(case: &Case<'_, impl Print>, text: &[u8], wanted: Answer) -> bool {
    let got = found(text);
    if got == wanted {
        return true;
    }
    difference::front(case, text, 0);
    let ((expected, at), (number, place)) = (wanted, got);
    let _ = println!(case.rt; " expected refusal {expected} at {at} got {number} at {place}");
    false
}

// All expected tokens are read, also behind one that differs, so that the next case is found.
fn tokens_agree(
    case: &Case<'_, impl Print>,
    file: &mut impl Read,
    text: &[u8],
    count: u64,
) -> bool {
    let mut same = true;
    let mut from = 0;
    for _ in 0..count {
        let wanted = lexemes::read(file);
        same = lexemes::agrees(case, text, from, wanted) & same;
        from = wanted.end as usize;
    }
    same
}

pub(crate) fn agrees(case: &Case<'_, impl Print>, file: &mut impl Read, text: &[u8]) -> bool {
    let tokens = tokens_agree(case, file, text, line::number(case.line, 4, 7));
    let wanted = (
        line::number(case.line, 8, 9),
        line::number(case.line, 10, 13),
    );
    verdict_agrees(case, text, wanted) & tokens
}
