// A case: a line with the lengths of an input and of its output, and then these two.
use crate::made;
use cases::line;
use reports::{read, report};
use std::io::Read;
use style::head::ROOM_SIZE;

const LINE: usize = 14;

// More bytes than any input or output of the files has.
const MOST: usize = 131_072;

// The input and its output stand behind the line. The room for what comes is larger than any output of
// the files, so that a longer one is seen to be.
fn agrees(
    rt: &impl Print,
    file: &mut impl Read,
    name: &str,
    number: u64,
    line: &[u8],
) -> Option<bool> {
    if !line::fits(line, b"hhhhhh hhhhhh\n") {
        return None;
    }
    let mut input = [0u8; MOST];
    let mut wanted = [0u8; MOST];
    let input = read::bytes(file, &mut input, line::number(line, 0, 6) as usize)?;
    let wanted = read::bytes(file, &mut wanted, line::number(line, 7, 13) as usize)?;
    let mut slots = [0u16; ROOM_SIZE];
    let mut out = [0u8; MOST + 128];
    let end = made::output(input, &mut slots, &mut out);
    let got = &out[..end];
    if got == wanted {
        return Some(true);
    }
    let _ = println!(rt; "{name}: {number}\nwanted");
    report::text(rt, wanted);
    report::text(rt, b"got\n");
    report::text(rt, got);
    Some(false)
}

// Cases count from 0. One whose line is malformed does not agree.
pub(crate) fn next(rt: &impl Print, file: &mut impl Read, name: &str, number: u64) -> Option<bool> {
    let mut room = [0u8; LINE];
    let line = read::line(file, &mut room)?;
    let answer = agrees(rt, file, name, number, line);
    if answer.is_none() {
        let _ = println!(rt; "{name}: malformed: {number}");
    }
    Some(answer.unwrap_or(false))
}
