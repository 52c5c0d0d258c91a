// Tests, which have to be Booleans.
ghost use Rattle.std.specs.Prelude.{◌≡◌};
ghost use Rattle.evaluator.specs.Inner.{boolean_in};

use value::value::Value;

// The Boolean that a value is.
pub(crate) fn boolean(v: Value) -> Option<bool>
    ensures { result ≡ boolean_in v }
{
    match v {
        Value::Boolean(b) => Some(b),
        _ => None,
    }
}
