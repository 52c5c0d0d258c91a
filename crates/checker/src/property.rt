// The kinds that a name stands for, and how the sets of all names lie in the plan.
ghost use Rattle.std.specs.Prelude.{◌≡◌};
ghost use Rattle.checker.specs.Property.{declared, property_kinds, unpacked_of, packed_of, set_at};

use kind::kind::Kind;
use kind::set::Kinds;
use plan::layout::{Plan, SETS, UNDECLARED};

// The kinds of a property with a type, which may be absent and may be null.
pub fn kinds(kind: Kind, absent: bool, null: bool) -> Kinds
    ensures { result ≡ property_kinds (declared kind absent null) }
{
    let own = Kinds::single(kind);
    Kinds {
        undefined: own.undefined | absent,
        null: own.null | null,
        ..own
    }
}

fn unpacked(packed: u16) -> Kinds
    ensures { result ≡ unpacked_of packed }
{
    Kinds {
        undefined: packed % 2 == 1,
        null: packed / 2 % 2 == 1,
        boolean: packed / 4 % 2 == 1,
        number: packed / 8 % 2 == 1,
        string: packed / 16 % 2 == 1,
        vec2: packed / 32 % 2 == 1,
        vec3: packed / 64 % 2 == 1,
        vec4: packed / 128 % 2 == 1,
    }
}

// The number of a set, a bit for each kind.
pub fn packed(set: Kinds) -> u16
    ensures { result ≡ packed_of set }
{
    let low = u16::from(set.undefined)
        + 2 * u16::from(set.null)
        + 4 * u16::from(set.boolean)
        + 8 * u16::from(set.number);
    low + 16 * u16::from(set.string)
        + 32 * u16::from(set.vec2)
        + 64 * u16::from(set.vec3)
        + 128 * u16::from(set.vec4)
}

// The set of a name's number. A number that has none in the plan is an undeclared name's.
pub fn set_at(plan: &Plan, number: usize) -> Kinds
    ensures { result ≡ set_at plan.now number }
{
    if number < UNDECLARED {
        unpacked(plan[SETS + number])
    } else {
        Kinds::UNDEFINED
    }
}
