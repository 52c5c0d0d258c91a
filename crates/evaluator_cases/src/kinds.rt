// Kinds as digits.
use kind::kind::{Kind, number};

pub(crate) fn of_digit(digit: u64) -> Kind {
    match digit {
        0 => Kind::Undefined,
        1 => Kind::Null,
        2 => Kind::Boolean,
        3 => Kind::Number,
        4 => Kind::String,
        5 => Kind::Vec2,
        6 => Kind::Vec3,
        _ => Kind::Vec4,
    }
}

pub(crate) fn digit(k: Kind) -> u8 {
    b'0'.wrapping_add(number(k))
}
