// The check of a head.
ghost use Rattle.std.specs.Prelude.{◌≡◌, length};
ghost use Rattle.style.specs.Head.{answer_of, checked_of, room_after};

use crate::head::compile;
use lexer::refusal::Refusal;
use plan::layout::PLAN;
use tree::write::clear;

// A refusal, and the line that it stands at.
#[derive(Clone, Copy)]
pub struct LineRefusal {
    pub line: usize,
    pub refusal: Refusal,
}

// Whether a head is accepted, or its first refusal. The room is zero afterwards; one that is too small
// stays as it is.
pub fn check(head: &[u8], room: &mut [u16]) -> Result<(), LineRefusal>
    ensures answer { answer_of result ≡ checked_of (length room.old) head.now }
    ensures zero { room.new ≡ room_after room.old }
{
    let mut plan = [0u16; PLAN];
    compile(head, &mut plan, room)?;
    clear(room);
    Ok(())
}
