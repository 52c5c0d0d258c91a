// Cases of a token at any place of a text, also inside another and past the end.
use crate::lexemes;
use cases::line;
use reports::case::Case;
use std::io::Read;

pub(crate) const FORM: &[u8; 21] = b"hhh hhhhhhhhhhhhhhhh\n";

pub(crate) fn agrees(case: &Case<'_, impl Print>, file: &mut impl Read, text: &[u8]) -> bool {
    let from = line::number(case.line, 4, 20) as usize;
    lexemes::agrees(case, text, from, lexemes::read(file))
}
