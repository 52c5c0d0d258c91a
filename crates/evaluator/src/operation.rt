// What an expression comes to, as a value.
ghost use Rattle.std.specs.Prelude.{◌≡◌};
ghost use Rattle.evaluator.specs.Eval.{value_in};

use value::value::Value;

// What is worked out; a fault has no value.
pub fn value_in(outcome: Option<Value>) -> Value
    ensures { result ≡ value_in outcome }
{
    outcome.unwrap_or(Value::Undefined)
}
