// Cases of whether a text names a colour, and which.
use crate::doubles;
use cases::line;
use colour::colour::Colour;
use reports::case::Case;
use reports::{read, report};
use std::io::Read;

pub(crate) const FORM: &[u8; 74] =
    b"hhh h hhhhhhhhhhhhhhhh hhhhhhhhhhhhhhhh hhhhhhhhhhhhhhhh hhhhhhhhhhhhhhhh\n";

pub(crate) fn agrees(case: &Case<'_, impl Print>, file: &mut impl Read) -> Option<bool> {
    let mut room = [0u8; read::MOST];
    let text = read::text(file, &mut room, line::number(case.line, 0, 3) as usize)?;
    // A line has zeros in place of a colour.
    let (mark, got) = match Colour::from_text(text) {
        Some(colour) => (b'1', doubles::of_colour(colour)),
        None => (b'0', [0; 4]),
    };
    if (line::byte(case.line, 4) == mark) & (doubles::of_line(case.line, 6) == got) {
        return Some(true);
    }
    case.text_difference(text);
    report::text(case.rt, b"got ");
    report::text(case.rt, &[mark]);
    doubles::print(case.rt, got);
    let _ = println!(case.rt; "");
    Some(false)
}
