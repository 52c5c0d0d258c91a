// `===`: values of unlike kinds differ, strings are compared by bytes, and vectors by components.
ghost use Rattle.std.specs.Prelude.{◌≡◌};
ghost use Rattle.lexer.specs.Bytes.{same};
ghost use Rattle.value.specs.Value.{text_of};
ghost use Rattle.value.specs.Equality.{equal_of};

use crate::texts::Texts;
use crate::value::{Span, Value};

// Whether two strings are the same: each lies in the style's text or in the feature's.
pub fn same_text(texts: Texts, a: Span, b: Span) -> bool
    ensures { result ≡ same (text_of texts.entry a) (text_of texts.entry b) }
{
    texts.bytes(a) == texts.bytes(b)
}

#[tactic(auto, unfolding(crate::specs::Equality::equal_of))]
pub fn equal(texts: Texts, v: Value, w: Value) -> bool
    ensures { result ≡ equal_of (text_of texts.entry) v w }
{
    match (v, w) {
        (Value::Undefined, Value::Undefined) => true,
        (Value::Null, Value::Null) => true,
        (Value::Boolean(a), Value::Boolean(b)) => a == b,
        (Value::Number(x), Value::Number(a)) => x == a,
        (Value::String(s), Value::String(t)) => same_text(texts, s, t),
        (Value::Vec2(x, y), Value::Vec2(a, b)) => (x == a) & (y == b),
        (Value::Vec3(x, y, z), Value::Vec3(a, b, c)) => (x == a) & (y == b) & (z == c),
        (Value::Vec4(x, y, z, w), Value::Vec4(a, b, c, d)) => (x == a)
            & (y == b)
            & (z == c)
            & (w == d),
        _ => false,
    }
}
