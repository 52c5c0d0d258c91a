// The lines of a head in turn.
ghost use Rattle.std.specs.Prelude.{◌≡◌, ◌≤◌, length};
ghost use Rattle.style.specs.Head.{answer_of, checked_of};
ghost use Rattle.style.specs.Compile.{fresh_plan, plan_after, trees_after};
ghost use Rattle.style.specs.Inner.{unread, LinesBy};

use crate::check::LineRefusal;
use crate::entry::read;
use crate::item::Before;
use crate::rows::with_entry;
use lexer::refusal::{Reason, Refusal};
use plan::layout::{NAMES, PLAN, Plan, SETS};
use text::part;
use text::part::LINE_FEED;
use tree::write::clear;

// The one size of the room, in slots of two bytes: one for each byte of the longest head.
pub const ROOM_SIZE: usize = 32768;

const MOST_BYTES: usize = 32768;

// A refusal before any line is read.
fn unread(reason: Reason, place: usize) -> LineRefusal
    ensures { result ≡ unread reason place }
{
    LineRefusal {
        line: 0,
        refusal: Refusal { reason, place },
    }
}

// No line yet: the counts are 0, and behind them 1 is the set of an undeclared name.
fn fresh() -> Plan
    ensures { result ≡ fresh_plan }
{
    let mut plan = [1u16; PLAN];
    plan[..SETS].fill(0);
    plan
}

// The lines in turn. By places and not by an iterator of lines, since a line's part of the room lies
// where the line does.
fn read_lines(head: &[u8], plan: &mut Plan, room: &mut [u16]) -> Result<(), LineRefusal>
    requires { (length head.now ≤ 32768) × (32768 ≤ length room.old) × (plan.old ≡ fresh_plan) }
    ensures { LinesBy head.now room.old plan.new room.new result }
{
    let mut names = [0usize; NAMES];
    let mut at = 0;
    let mut line = 1;
    while at < head.len() {
        let end = part::end(LINE_FEED, head, at);
        let before = Before {
            head,
            names: &names,
            plan,
        };
        match read(&before, &head[at..end], &mut room[at..end]) {
            Ok(entry) => with_entry(entry, at, &mut names, plan),
            Err(refusal) => return Err(LineRefusal { line, refusal }),
        }
        at = end + 1;
        line += 1;
    }
    Ok(())
}

// Checks a head and keeps what painting needs of it: the plan, and in the room the trees of the
// expressions. After a refusal the plan is as it was and the room is zero; a room that is too small
// stays as it is.
pub fn compile(head: &[u8], plan: &mut Plan, room: &mut [u16]) -> Result<(), LineRefusal>
    ensures answer { answer_of result ≡ checked_of (length room.old) head.now }
    ensures plan { plan.new ≡ plan_after (length room.old) head.now plan.old }
    ensures room { room.new ≡ trees_after head.now room.old }
{
    if room.len() < ROOM_SIZE {
        return Err(unread(Reason::Room, 0));
    }
    if MOST_BYTES < head.len() {
        clear(room);
        return Err(unread(Reason::Size, MOST_BYTES));
    }
    let mut own = fresh();
    if let Err(refusal) = read_lines(head, &mut own, room) {
        clear(room);
        return Err(refusal);
    }
    *plan = own;
    Ok(())
}
