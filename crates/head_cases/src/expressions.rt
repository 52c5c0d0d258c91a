// The expressions of a head, each with a line, its row, where it lies in the head, the place of its
// root and the length of its tree, and then the tree.
use crate::rooms;
use cases::line;
use plan::layout::{EXPRESSIONS, Plan, ROW, ROWS};
use plan::numbers::number_at;
use printed::shown;
use reports::case::Case;
use reports::{read, report};
use std::io::Read;
use syntax::judge::MOST_HEIGHT;

const LINE: usize = 22;

// More than any tree of the files has bytes, so that a full page is none.
const PAGE: usize = 8400;

// Where it lies: its places in the head, and its root.
fn places(found: &[u8]) -> [u64; 3] {
    [
        line::number(found, 3, 7),
        line::number(found, 8, 12),
        line::number(found, 13, 16),
    ]
}

fn row_agrees(found: &[u8], plan: &Plan) -> bool {
    let row = line::number(found, 0, 2) as usize;
    if row < EXPRESSIONS {
        let p = ROWS + ROW * row;
        let got = [
            number_at(plan, p) as u64,
            number_at(plan, p + 1) as u64,
            number_at(plan, p + 2) as u64,
        ];
        return got == places(found);
    }
    false
}

fn place_agrees(case: &Case<'_, impl Print>, head: &[u8], found: &[u8], plan: &Plan) -> bool {
    if row_agrees(found, plan) {
        return true;
    }
    case.text_difference(head);
    report::text(case.rt, b"another expression than ");
    report::text(case.rt, found);
    false
}

fn page_agrees(case: &Case<'_, impl Print>, head: &[u8], tree: &[u8], shown: &[u8]) -> bool {
    if shown == tree {
        return true;
    }
    case.text_difference(head);
    for part in [b"wanted ".as_slice(), tree, b"\ngot ", shown, b"\n"] {
        report::text(case.rt, part);
    }
    false
}

// The tree of an expression by its places in the head; none if it does not lie there.
fn tree_agrees(
    case: &Case<'_, impl Print>,
    head: &[u8],
    slots: &[u16],
    found: &[u8],
    tree: &[u8],
) -> Option<bool> {
    let [from, to, root] = places(found);
    let (from, to) = (from as usize, to as usize);
    let text = head.get(from..to)?;
    let slots = slots.get(from..to)?;
    let mut page = [0u8; PAGE];
    let end = shown::tree(&mut page, 0, text, true, slots, root as usize, MOST_HEIGHT);
    if end < PAGE {
        return Some(page_agrees(case, head, tree, &page[..end]));
    }
    case.text_difference(head);
    let _ = println!(case.rt; "the tree is too long");
    Some(false)
}

// The tree stands behind the line.
fn shape_agrees(
    case: &Case<'_, impl Print>,
    file: &mut impl Read,
    head: &[u8],
    slots: &[u16],
    found: &[u8],
) -> Option<bool> {
    if !line::fits(found, b"hh hhhh hhhh hhh hhhh\n") {
        return None;
    }
    let mut room = [0u8; rooms::TEXT];
    let tree = read::text(file, &mut room, line::number(found, 17, 21) as usize)?;
    tree_agrees(case, head, slots, found, tree)
}

fn one_agrees(
    case: &Case<'_, impl Print>,
    file: &mut impl Read,
    head: &[u8],
    slots: &[u16],
    plan: &Plan,
) -> bool {
    let mut room = [0u8; LINE];
    let line = read::line(file, &mut room).unwrap_or(b"");
    let place = place_agrees(case, head, line, plan);
    match shape_agrees(case, file, head, slots, line) {
        Some(shape) => place & shape,
        None => Case { line, ..*case }.malformed(),
    }
}

// All of them are compared, whatever comes of the first.
pub(crate) fn agree(
    case: &Case<'_, impl Print>,
    file: &mut impl Read,
    head: &[u8],
    slots: &[u16],
    plan: &Plan,
) -> bool {
    let mut same = true;
    for _ in 0..line::number(case.line, 35, 37) {
        same = one_agrees(case, file, head, slots, plan) & same;
    }
    same
}
