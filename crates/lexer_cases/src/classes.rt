// Cases of which classes a byte is of: its line has 0 or 1 for each class, and the text is the byte.
// The last is no class: whether a name may have as many bytes as the byte says.
use crate::difference;
use cases::line;
use lexer::bytes;
use reports::case::Case;

pub(crate) const FORM: &[u8; 18] = b"hhh h h h h h h h\n";

// Whether a class has the byte exactly if the line has 1 at the class's place.
fn class_agrees(case: &Case<'_, impl Print>, text: &[u8], at: usize, has: bool) -> bool {
    if has == (line::byte(case.line, at) == b'1') {
        return true;
    }
    difference::front(case, text, at);
    let _ = println!(case.rt; " differs");
    false
}

// All classes are compared, whatever comes of the first.
pub(crate) fn agrees(case: &Case<'_, impl Print>, text: &[u8]) -> bool {
    let b = line::byte(text, 0);
    let mut same = true;
    for (at, has) in [
        (4, bytes::is_space(b)),
        (6, bytes::is_letter(b)),
        (8, bytes::is_hex_digit(b)),
        (10, bytes::is_name_byte(b)),
        (12, bytes::is_word_start(b)),
        (14, bytes::is_quote(b)),
        (16, bytes::is_name_length(b as usize)),
    ] {
        same = class_agrees(case, text, at, has) & same;
    }
    same
}
