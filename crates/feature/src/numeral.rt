// Numbers of fields, and how several of them make a vector.
ghost use Rattle.std.specs.Prelude.{◌≡◌};
ghost use Rattle.feature.specs.Field.{whole_number, numeral_of, numbers_of};
ghost use Rattle.feature.specs.Inner.{longer};

use number::decimal;
use number::decimal::Decimal;
use text::part::SPACE;
use value::value::Value;

// A number that goes up to the text's end.
fn whole_number(negative: bool, end: usize, found: Decimal) -> Option<f64>
    ensures { result ≡ whole_number negative end found }
{
    match found {
        Decimal::Number {
            end: stop,
            digits,
            places,
        } if stop == end => Some(decimal::value(negative, digits, places)),
        _ => None,
    }
}

fn signed(text: &[u8]) -> Option<f64>
    ensures { result ≡ numeral_of text.now }
{
    if text.starts_with(b"-") {
        whole_number(true, text.len(), decimal::read(text, 1))
    } else {
        whole_number(false, text.len(), decimal::read(text, 0))
    }
}

// A value with one number more: a Number becomes a vec2, and so on up to a vec4.
fn longer(value: Value, x: f64) -> Option<Value>
    ensures { result ≡ longer value x }
{
    match value {
        Value::Undefined => Some(Value::Number(x)),
        Value::Number(a) => Some(Value::Vec2(a, x)),
        Value::Vec2(a, b) => Some(Value::Vec3(a, b, x)),
        Value::Vec3(a, b, c) => Some(Value::Vec4(a, b, c, x)),
        _ => None,
    }
}

// Numbers parted by single spaces.
pub(crate) fn numbers(text: &[u8]) -> Option<Value>
    ensures { result ≡ numbers_of text.now }
{
    let mut value = Value::Undefined;
    for part in text.split(|b| *b == SPACE) {
        value = longer(value, signed(part)?)?;
    }
    Some(value)
}
