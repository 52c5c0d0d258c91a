// Kinds as digits, and sets of kinds as masks: kind k is in a set if bit k is.
use cases::line;
use kind::kind::{Kind, number};
use kind::set::Kinds;

// In the order of their digits.
pub(crate) const KINDS: [Kind; 8] = [
    Kind::Undefined,
    Kind::Null,
    Kind::Boolean,
    Kind::Number,
    Kind::String,
    Kind::Vec2,
    Kind::Vec3,
    Kind::Vec4,
];

// The kind of the hex digit at a place.
pub(crate) fn of_line(line: &[u8], at: usize) -> Option<Kind> {
    KINDS
        .get(line::number(line, at, at.saturating_add(1)) as usize)
        .copied()
}

pub(crate) fn digit(k: Kind) -> u8 {
    b'0'.wrapping_add(number(k))
}

pub(crate) fn of_mask(mask: u64) -> Kinds {
    Kinds {
        undefined: mask & 1 != 0,
        null: mask & 2 != 0,
        boolean: mask & 4 != 0,
        number: mask & 8 != 0,
        string: mask & 16 != 0,
        vec2: mask & 32 != 0,
        vec3: mask & 64 != 0,
        vec4: mask & 128 != 0,
    }
}

pub(crate) fn mask(set: Kinds) -> u64 {
    u64::from(set.undefined)
        | u64::from(set.null) << 1
        | u64::from(set.boolean) << 2
        | u64::from(set.number) << 3
        | u64::from(set.string) << 4
        | u64::from(set.vec2) << 5
        | u64::from(set.vec3) << 6
        | u64::from(set.vec4) << 7
}
