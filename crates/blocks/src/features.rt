// The features of a block, each a line, printed one behind the other.
ghost use Rattle.std.specs.Prelude.{◌≡◌, ◌+◌, ◌≤◌, length};
ghost use Rattle.blocks.specs.Block.{is_whole, is_next, left_from, printed_of, progress_of, on_page, Advances};

use output::line::LONGEST;
use painter::given::given;
use painter::print;
use plan::layout::{Plan, UNDECLARED};
use text::part;
use text::part::LINE_FEED;
use value::value::Value;

// The first number that is refused. Nothing is printed behind its line.
pub const LAST: usize = 1_000_000;

// A line that has as many bytes is too long, whatever else it has.
const TOO_LONG: usize = 4097;

// How far a block is printed.
#[derive(Clone, Copy, Debug, PartialEq, Eq)]
pub struct Progress {
    // Where those of its bytes begin that are left.
    pub at: usize,
    // The number of the next line.
    pub number: usize,
    // How many bytes are printed.
    pub printed: usize,
}

// Whether the line from a place up to an end is whole: an LF ends it, or the input's end does.
fn is_whole(at: usize, end: usize, size: usize, ends: bool) -> bool
    ensures { result ≡ is_whole at end size ends }
{
    at < size && (end < size || ends)
}

// Whether a line is printed next: it is whole, and there is a number and room for it.
fn is_next(whole: bool, number: usize, room: usize) -> bool
    ensures { result ≡ is_next whole number room }
{
    whole && number <= LAST && LONGEST <= room
}

// Where the bytes begin that are left, if the next line begins at a place and is not printed. Of one
// that is too long already the last bytes are enough.
fn left_from(at: usize, end: usize, size: usize) -> usize
    ensures { result ≡ left_from at end size }
{
    if end < size {
        at
    } else {
        size - size.saturating_sub(at).min(TOO_LONG)
    }
}

// Prints the lines of a block, by the plan and the room that `compile` leaves of a head: those that are
// whole and fit, from a number on. What is left of the block comes first in the next one. Parameters by
// themselves and no struct, as callers in C will have them; by places and no iterator of lines, since what
// is left begins at a place.
pub fn lines(
    head: &[u8],
    plan: &Plan,
    room: &[u16],
    block: &[u8],
    first: usize,
    ends: bool,
    out: &mut [u8],
) -> Progress
    ensures progress { result ≡ progress_of block.now first (printed_of
        head.now plan.now room.now block.now first ends (length out.old)) }
    ensures written { out.new ≡ on_page out.old (printed_of
        head.now plan.now room.now block.now first ends (length out.old)) }
    ensures advances { Advances block.now out.old first result }
{
    let mut values = [Value::Undefined; UNDECLARED];
    let mut at = 0;
    let mut number = first;
    let mut printed = 0;
    loop {
        let end = part::end(LINE_FEED, block, at);
        let whole = is_whole(at, end, block.len(), ends);
        if !is_next(whole, number, out.len() - printed) {
            return Progress {
                at: left_from(at, end, block.len()),
                number,
                printed,
            };
        }
        let line = &block[at..end];
        let drawn = given(head, plan, room, line, number, &mut values);
        printed += print::line(drawn, number, &mut out[printed..]);
        number += 1;
        at = end + 1;
    }
}
