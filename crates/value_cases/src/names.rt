// Cases of a word as the name of a function and as a member's.
use crate::operations;
use cases::line;
use kind::operation::Operation;
use reports::case::Case;
use reports::read;
use std::io::Read;
use value::name::{function_at, function_number, member_index, pick_at};

pub(crate) const FORM: &[u8; 15] = b"hhh hh hh h hh\n";

// The operation's number, or how many there are.
fn operation_number(found: Option<Operation>) -> u64 {
    found.map_or(
        operations::COUNT as u64,
        |operation| operations::number(operation),
    )
}

// The word's place in the table of functions and the operation there, and the same of members.
fn found(word: &[u8]) -> [u64; 4] {
    let function = function_number(word);
    let member = member_index(word);
    [
        function as u64,
        operation_number(function_at(function)),
        member as u64,
        operation_number(pick_at(member)),
    ]
}

fn wanted(line: &[u8]) -> [u64; 4] {
    [
        line::number(line, 4, 6),
        line::number(line, 7, 9),
        line::number(line, 10, 11),
        line::number(line, 12, 14),
    ]
}

pub(crate) fn agrees(case: &Case<'_, impl Print>, file: &mut impl Read) -> Option<bool> {
    let mut room = [0u8; read::MOST];
    let word = read::text(file, &mut room, line::number(case.line, 0, 3) as usize)?;
    let got = found(word);
    if got == wanted(case.line) {
        return Some(true);
    }
    case.text_difference(word);
    let [function, called, member, picked] = got;
    let _ = println!(case.rt; "got {function:02x} {called:02x} {member:x} {picked:02x}");
    Some(false)
}
