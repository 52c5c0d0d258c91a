// Refusals as the files have them.
use lexer::refusal::Refusal;
use reports::case::Case;
use style::check::LineRefusal;

// The number is 0 for none.
#[derive(Clone, Copy, Default, PartialEq, Eq, Drop)]
pub(crate) struct Answer {
    pub number: u64,
    pub line: u64,
    pub place: u64,
}

pub(crate) fn of_head(checked: Result<(), LineRefusal>) -> Answer {
    match checked {
        Ok(()) => Answer::default(),
        Err(r) => Answer {
            number: u64::from(u8::from(r.refusal.reason)),
            line: r.line as u64,
            place: r.refusal.place as u64,
        },
    }
}

// A feature's line is the number that it was given, so it is no part of the answer.
pub(crate) fn of_feature(read: Result<(), Refusal>) -> Answer {
    match read {
        Ok(()) => Answer::default(),
        Err(r) => Answer {
            number: u64::from(u8::from(r.reason)),
            line: 0,
            place: r.place as u64,
        },
    }
}

// Whether the answer to a text is the wanted one.
pub(crate) fn agrees(
    case: &Case<'_, impl Print>,
    text: &[u8],
    wanted: Answer,
    got: Answer,
) -> bool {
    if got == wanted {
        return true;
    }
    case.text_difference(text);
    let Answer {
        number,
        line,
        place,
    } = got;
    let _ = println!(case.rt; "got {number:x} {line:04x} {place:05x}");
    false
}
