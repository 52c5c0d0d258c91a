// Reading a plan.
ghost use Rattle.std.specs.Prelude.{◌≡◌};
ghost use Rattle.plan.specs.Layout.{number_at};

use crate::layout::Plan;

// The number at a place; 0 behind the last.
pub fn number_at(plan: &Plan, place: usize) -> usize
    ensures { result ≡ number_at plan.now place }
{
    plan.get(place).map_or(0, |number| usize::from(*number))
}
