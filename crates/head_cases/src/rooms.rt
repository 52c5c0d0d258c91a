// Rooms for what the files have, and what room that was lent holds afterwards.
use reports::case::Case;

// What its slots hold before.
pub(crate) const UNUSED: u16 = 0xABCD;

// More slots than any case lends.
pub(crate) const SLOTS: usize = 33000;

// More bytes than any head of the files has.
pub(crate) const HEAD: usize = 33000;

// More bytes than any other text of the files has.
pub(crate) const TEXT: usize = 8400;

// A loop, since `all` takes two steps of the processor for a slot where this takes one.
fn are_all(slots: &[u16], word: u16) -> bool {
    for slot in slots {
        if *slot != word {
            return false;
        }
    }
    true
}

fn hold(case: &Case<'_, impl Print>, head: &[u8], slots: &[u16], word: u16) -> bool {
    if are_all(slots, word) {
        return true;
    }
    case.text_difference(head);
    let _ = println!(case.rt; "slots are not as they should be");
    false
}

pub(crate) fn untouched(case: &Case<'_, impl Print>, head: &[u8], slots: &[u16]) -> bool {
    hold(case, head, slots, UNUSED)
}

// Zero, save under 10, when it is untouched.
pub(crate) fn agree(case: &Case<'_, impl Print>, head: &[u8], slots: &[u16], number: u64) -> bool {
    hold(case, head, slots, if number == 10 { UNUSED } else { 0 })
}
