// Cases of whether a word stands at a place of a text. A word of one byte is asked for as a byte too.
use crate::difference;
use cases::line;
use lexer::bytes;
use reports::case::Case;
use reports::{read, report};
use std::io::Read;

pub(crate) const FORM: &[u8; 27] = b"hhh hhhhhhhhhhhhhhhh hhh h\n";

// 1 where it stands, and 2 where the two ways to ask disagree.
fn answer(text: &[u8], at: usize, word: &[u8]) -> u64 {
    let by_word = bytes::has_word(text, at, word);
    match word {
        [byte] if bytes::has_byte(text, at, *byte) != by_word => 2,
        _ => u64::from(by_word),
    }
}

fn word_agrees(case: &Case<'_, impl Print>, text: &[u8], word: &[u8]) -> bool {
    let at = line::number(case.line, 4, 20) as usize;
    let wanted = line::number(case.line, 25, 26);
    let got = answer(text, at, word);
    if got == wanted {
        return true;
    }
    difference::front(case, text, at);
    let _ = print!(case.rt; " word ");
    report::text(case.rt, word);
    let _ = println!(case.rt; " expected {wanted} got {got}");
    false
}

// The word stands behind the text.
pub(crate) fn agrees(
    case: &Case<'_, impl Print>,
    file: &mut impl Read,
    text: &[u8],
) -> Option<bool> {
    let mut room = [0u8; read::MOST];
    let word = read::text(file, &mut room, line::number(case.line, 21, 24) as usize)?;
    Some(word_agrees(case, text, word))
}
