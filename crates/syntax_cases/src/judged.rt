// What the crate syntax says of a text: a refusal, or the tree that it lays into slots.
use cases::line;
use lexer::refusal::{Reason, Refusal};
use printed::shown;
use reports::case::Case;
use reports::report;
use syntax::judge::judge;

// What the slots hold before.
const UNUSED: u16 = 0xABCD;

// More than any text has bytes.
const SLOTS: usize = 4200;

// More than any file's tree has bytes, so that a full page is none.
const PAGE: usize = 4200;

const MOST_HEIGHT: usize = 64;

// Says what differs of a text.
fn differs(case: &Case<'_, impl Print>, text: &[u8], what: &str) -> bool {
    case.text_difference(text);
    let _ = println!(case.rt; "{what}");
    false
}

// Slots that are not the text's are left alone.
fn rest_agrees(case: &Case<'_, impl Print>, text: &[u8], slots: &[u16]) -> bool {
    slots.iter().skip(text.len()).all(|slot| *slot == UNUSED)
        || differs(case, text, "slots behind the text are written")
}

// After a refusal the text's slots are zero.
fn clear_agrees(case: &Case<'_, impl Print>, text: &[u8], slots: &[u16]) -> bool {
    slots.iter().take(text.len()).all(|slot| *slot == 0)
        || differs(case, text, "slots of a refused text are not zero")
}

fn refusal_agrees(case: &Case<'_, impl Print>, text: &[u8], refusal: Refusal) -> bool {
    let number = u64::from(u8::from(refusal.reason));
    let place = refusal.place as u64;
    let same = (line::number(case.line, 4, 5) == number) & (line::number(case.line, 6, 9) == place);
    if same & (number != 0) {
        return true;
    }
    case.text_difference(text);
    let _ = println!(case.rt; "got {number:x} {place:03x}");
    false
}

fn page_agrees(case: &Case<'_, impl Print>, text: &[u8], tree: &[u8], shown: &[u8]) -> bool {
    if (shown == tree) & (line::number(case.line, 4, 5) == 0) {
        return true;
    }
    case.text_difference(text);
    let _ = print!(case.rt; "got ");
    report::text(case.rt, shown);
    let _ = println!(case.rt; "");
    false
}

fn tree_agrees(
    case: &Case<'_, impl Print>,
    text: &[u8],
    tree: &[u8],
    slots: &[u16],
    root: usize,
) -> bool {
    let mut page = [0u8; PAGE];
    let end = shown::tree(&mut page, 0, text, false, slots, root, MOST_HEIGHT);
    if end < PAGE {
        page_agrees(case, text, tree, &page[..end])
    } else {
        differs(case, text, "the tree is too long")
    }
}

fn judgement_agrees(
    case: &Case<'_, impl Print>,
    text: &[u8],
    tree: &[u8],
    slots: &mut [u16],
) -> bool {
    let same = match judge(text, slots) {
        Ok(root) => tree_agrees(case, text, tree, slots, root),
        Err(refusal) => refusal_agrees(case, text, refusal) & clear_agrees(case, text, slots),
    };
    same & rest_agrees(case, text, slots)
}

// With a slot too few a text is refused, and the slots are left alone.
fn short_agrees(case: &Case<'_, impl Print>, text: &[u8], slots: &mut [u16]) -> bool {
    let refused = judge(text, slots).is_err_and(|refusal| (refusal.reason == Reason::Room)
        & (refusal.place == 0));
    refused & slots.iter().all(|slot| *slot == UNUSED)
        || differs(case, text, "too few slots are not refused")
}

// The empty text needs no slot.
fn room_agrees(case: &Case<'_, impl Print>, text: &[u8], slots: &mut [u16]) -> bool {
    if (0 < text.len()) & (text.len() <= slots.len()) {
        short_agrees(case, text, &mut slots[..text.len() - 1])
    } else {
        true
    }
}

pub(crate) fn agrees(case: &Case<'_, impl Print>, text: &[u8], tree: &[u8]) -> bool {
    let mut slots = [UNUSED; SLOTS];
    room_agrees(case, text, &mut slots) & judgement_agrees(case, text, tree, &mut slots)
}
