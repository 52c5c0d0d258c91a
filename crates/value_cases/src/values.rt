// Values as digits: a kind and the patterns of four doubles, of which a Boolean has 0 or 1 as the
// first, and those that the kind does not have are 0.
use kind::kind::{Kind, dimension, number};
use number::bits::{from_bits, to_bits};
use value::value::Value;

// A String is a place and has no patterns.
pub(crate) fn of_patterns(kind: Kind, patterns: [u64; 4]) -> Value {
    let [x, y, z, w] = patterns;
    match kind {
        Kind::Undefined | Kind::String => Value::Undefined,
        Kind::Null => Value::Null,
        Kind::Boolean => Value::Boolean(x == 1),
        Kind::Number => Value::Number(from_bits(x)),
        Kind::Vec2 => Value::Vec2(from_bits(x), from_bits(y)),
        Kind::Vec3 => Value::Vec3(from_bits(x), from_bits(y), from_bits(z)),
        Kind::Vec4 => Value::Vec4(from_bits(x), from_bits(y), from_bits(z), from_bits(w)),
    }
}

// One of the four patterns.
fn pattern(v: Value, i: u8) -> u64 {
    if i < dimension(v.kind()) {
        return to_bits(v.component(i));
    }
    u64::from((i == 0) & v.is_true())
}

// The number of the kind and the four patterns of what is worked out. A fault is Undefined in the files,
// which no operation gives.
pub(crate) fn columns(outcome: Option<Value>) -> [u64; 5] {
    let v = outcome.unwrap_or(Value::Undefined);
    [
        u64::from(number(v.kind())),
        pattern(v, 0),
        pattern(v, 1),
        pattern(v, 2),
        pattern(v, 3),
    ]
}

// What came.
pub(crate) fn print(rt: &impl Print, columns: [u64; 5]) {
    let [kind, x, y, z, w] = columns;
    let _ = println!(rt; "got {kind:x} {x:016x} {y:016x} {z:016x} {w:016x}");
}
