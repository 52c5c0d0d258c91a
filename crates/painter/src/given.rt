// What a style, as a head was compiled, gives a feature.
ghost use Rattle.std.specs.Prelude.{◌≡◌};
ghost use Rattle.painter.specs.Paint.{drawn_answer};
ghost use Rattle.painter.specs.Applied.{source, given_under, given_values};

use crate::answer::Given;
use crate::draw::Source;
use evaluator::values::Values;
use feature::feature::read;
use plan::layout::Plan;
use style::check::LineRefusal;

// Reads a feature and works the style out for it, by the plan and the room that `compile` leaves. The
// values are lent for those of the feature and of the defines: under the plan of a head it doesn't
// matter what they are before. Whatever is lent is a parameter of its own, as a caller from C will lend
// it.
pub fn given(
    head: &[u8],
    plan: &Plan,
    room: &[u16],
    feature: &[u8],
    number: usize,
    values: &mut Values,
) -> Result<Given, LineRefusal>
    ensures answer { drawn_answer result ≡ given_under
        (source head.now feature.now room.now plan.now) number values.old }
    ensures values { values.new ≡ given_values
        (source head.now feature.now room.now plan.now) number values.old }
{
    read(plan, number, feature, values).map_err(|refusal| LineRefusal {
        line: number,
        refusal,
    })?;
    let source = Source {
        head,
        feature,
        room,
        plan,
    };
    Ok(source.draw(values))
}
