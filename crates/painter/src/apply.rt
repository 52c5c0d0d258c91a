// A style, as a head was compiled, applied to a feature.
ghost use Rattle.std.specs.Prelude.{◌≡◌};
ghost use Rattle.painter.specs.Paint.{answer_of};
ghost use Rattle.painter.specs.Applied.{source, applied_of, applied_values};

use crate::answer::Painted;
use crate::given::given;
use crate::paint::{LEAST_BYTES, TOO_SMALL};
use evaluator::values::Values;
use output::line;
use plan::layout::Plan;
use style::check::LineRefusal;

// What `paint` answers for a feature, by the plan and the room that `compile` leaves. An accepted
// feature's line is written at the front of the buffer. The values are lent for those of the feature.
// Each thing that is lent is a parameter of its own, as for `given`.
pub fn apply(
    head: &[u8],
    plan: &Plan,
    room: &[u16],
    feature: &[u8],
    number: usize,
    out: &mut [u8],
    values: &mut Values,
) -> Result<Painted, LineRefusal>
    ensures answer { (answer_of result, out.new) ≡ applied_of
        (source head.now feature.now room.now plan.now) number
        out.old values.old }
    ensures values { values.new ≡ applied_values
        (source head.now feature.now room.now plan.now) number
        out.old values.old }
{
    if out.len() < LEAST_BYTES {
        return Err(TOO_SMALL);
    }
    let given = given(head, plan, room, feature, number, values)?;
    let bytes = line::painted(out, number, given.show, given.colouring);
    Ok(Painted { given, bytes })
}
