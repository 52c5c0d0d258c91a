// The values of names by the names' numbers, which whoever reads a feature fills.
ghost use Rattle.std.specs.Prelude.{◌≡◌};
ghost use Rattle.evaluator.specs.Values.{value_at, stored};

use plan::layout::UNDECLARED;
use value::value::Value;

pub type Values = [Value; UNDECLARED];

// An undeclared name has no value.
pub fn value_at(values: &Values, number: usize) -> Value
    ensures { result ≡ value_at values.now number }
{
    values.get(number).copied().unwrap_or(Value::Undefined)
}

// Stores a value for `value_at` to read; an undeclared name's changes nothing.
pub fn store(values: &mut Values, number: usize, value: Value)
    ensures { values.new ≡ stored values.old number value }
{
    if number < UNDECLARED {
        values[number] = value;
    }
}
