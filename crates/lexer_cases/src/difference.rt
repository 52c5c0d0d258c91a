// What is said of a difference.
use reports::case::Case;
use reports::report;

// The front of a line about it.
pub(crate) fn front(case: &Case<'_, impl Print>, text: &[u8], at: usize) {
    let Case { rt, name, line: _ } = *case;
    report::text(rt, name);
    report::text(rt, b" text ");
    report::text(rt, text);
    let _ = print!(rt; " at {at}");
}
