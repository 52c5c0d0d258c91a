// Cases of the set of kinds of a node: a line has its operation and the sets of up to six parts,
// and whether it is refused (R) or accepted (A), and with which set.
use crate::{kinds, operations};
use cases::line;
use kind::choice::{Parts, add, node_kinds};
use reports::case::Case;
use reports::report;

pub(crate) const FORM: &[u8; 23] = b"hh h hhhhhhhhhhhh ? hh\n";

const MOST_PARTS: usize = 6;

// The first so many parts of a line, six at most.
fn parts(line: &[u8], count: usize) -> Parts {
    let mut parts = Parts::new();
    for i in 0..MOST_PARTS {
        if i < count {
            let at = 5 + 2 * i;
            add(&mut parts, kinds::of_mask(line::number(line, at, at + 2)));
        }
    }
    parts
}

pub(crate) fn agrees(case: &Case<'_, impl Print>) -> Option<bool> {
    let line = case.line;
    let operation = operations::of_line(line)?;
    let count = line::number(line, 3, 4) as usize;
    if MOST_PARTS < count {
        return None;
    }
    let (mark, mask) = match node_kinds(operation, parts(line, count).as_slice()) {
        None => (b'R', 0),
        Some(set) => (b'A', kinds::mask(set)),
    };
    if (line::byte(line, 18) == mark) & (line::number(line, 20, 22) == mask) {
        return Some(true);
    }
    case.difference();
    report::text(case.rt, b"got ");
    report::text(case.rt, &[mark]);
    let _ = println!(case.rt; " {mask:02x}");
    Some(false)
}
