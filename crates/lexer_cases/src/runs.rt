// Cases of where a run of bytes of one class ends.
use crate::difference;
use cases::line;
use lexer::bytes;
use lexer::bytes::Class;
use reports::case::Case;

pub(crate) const FORM: &[u8; 43] = b"hhh hhhhhhhhhhhhhhhh ? hh hhhhhhhhhhhhhhhh\n";

// S is spaces, N a name; anything else is what may stand inside a string that q closes.
fn class(kind: u8, q: u8) -> Class {
    match kind {
        b'S' => Class::Space,
        b'N' => Class::Name,
        _ => Class::Inside(q),
    }
}

pub(crate) fn agrees(case: &Case<'_, impl Print>, text: &[u8]) -> bool {
    let at = line::number(case.line, 4, 20) as usize;
    let q = line::low_byte(line::number(case.line, 23, 25));
    let wanted = line::number(case.line, 26, 42);
    let got = bytes::run_end(text, at, class(line::byte(case.line, 21), q)) as u64;
    if got == wanted {
        return true;
    }
    difference::front(case, text, at);
    let _ = println!(case.rt; " expected {wanted} got {got}");
    false
}
