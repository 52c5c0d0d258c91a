// The names of a case, each on a line: its number, where it lies in the head, and what it stands for, a
// property's flags and type or a define's set.
use crate::kinds;
use cases::line;
use checker::property;
use checker::property::packed;
use plan::layout::{FIRST_DEFINE, Names, Plan, SETS, UNDECLARED};
use std::io::Read;

const LINE: usize = 16;

// Of a property's flags the first bit is set if it may be absent, the second if it may be null.
fn set_of(line: &[u8], number: usize) -> u16 {
    if number < FIRST_DEFINE {
        let flags = line::number(line, 11, 12);
        let kind = kinds::of_digit(line::number(line, 14, 15));
        packed(property::kinds(kind, flags & 1 != 0, flags & 2 != 0))
    } else {
        u16::from(line::low_byte(line::number(line, 13, 15)))
    }
}

fn read_one(file: &mut impl Read, names: &mut Names, plan: &mut Plan) -> Option<()> {
    let mut room = [0u8; LINE];
    let line = reports::read::line(file, &mut room)?;
    let number = line::number(line, 0, 2) as usize;
    if !line::fits(line, b"hh hhh hhh h hh\n") {
        return None;
    }
    if UNDECLARED <= number {
        return None;
    }
    names[2 * number] = line::number(line, 3, 6) as usize;
    names[2 * number + 1] = line::number(line, 7, 10) as usize;
    plan[SETS + number] = set_of(line, number);
    Some(())
}

// Reads so many lines. A number that none is for keeps the empty name, which no variable has.
pub(crate) fn read(
    file: &mut impl Read,
    count: u64,
    names: &mut Names,
    plan: &mut Plan,
) -> Option<()> {
    for _ in 0..count {
        read_one(file, names, plan)?;
    }
    Some(())
}
