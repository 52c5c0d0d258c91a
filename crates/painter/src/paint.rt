// The painter's call.
ghost use Rattle.std.specs.Prelude.{◌≡◌, length};
ghost use Rattle.painter.specs.Paint.{answer_of, painted_of, out_after, room_after};

use crate::answer::Painted;
use crate::apply::apply;
use lexer::refusal::{Reason, Refusal};
use plan::layout::{PLAN, UNDECLARED};
use style::check::LineRefusal;
use style::head::compile;
use tree::write::clear;
use value::value::Value;

// The least that a buffer has to hold.
pub(crate) const LEAST_BYTES: usize = 32;

// What a buffer that holds less is refused with.
pub(crate) const TOO_SMALL: LineRefusal = LineRefusal {
    line: 0,
    refusal: Refusal {
        reason: Reason::Room,
        place: 0,
    },
};

// Paints a feature by a head: its line is written at the front of the buffer. A refused call leaves the
// buffer as it is. The room is zero afterwards; if the buffer or the room is too small it stays as it is.
pub fn paint(
    head: &[u8],
    feature: &[u8],
    number: usize,
    out: &mut [u8],
    room: &mut [u16],
) -> Result<Painted, LineRefusal>
    ensures answer { answer_of result ≡ painted_of (length out.old) (length room.old)
        head.now number feature.now }
    ensures written { out.new ≡ out_after (answer_of result) number out.old }
    ensures zero { room.new ≡ room_after (length out.old) room.old }
{
    if out.len() < LEAST_BYTES {
        return Err(TOO_SMALL);
    }
    let mut plan = [0u16; PLAN];
    compile(head, &mut plan, room)?;
    let mut values = [Value::Undefined; UNDECLARED];
    let painted = apply(head, &plan, room, feature, number, out, &mut values);
    clear(room);
    painted
}
