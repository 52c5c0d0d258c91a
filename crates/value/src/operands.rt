// The operands of an operation: any count of them, each with a value.
ghost use Rattle.std.specs.Prelude.{◌≡◌};
ghost use Rattle.value.specs.Meaning.{operand, joined_at};

use crate::value::Value;
use kind::kind::dimension;

// An operand by its place; one that is not there is Undefined.
pub(crate) fn operand(operands: &[Value], place: usize) -> Value
    ensures { result ≡ operand place operands.now }
{
    operands.get(place).copied().unwrap_or(Value::Undefined)
}

// A component of all the operands', one operand after the other; past the end, the first operand's first.
pub(crate) fn joined_at(operands: &[Value], i: u8) -> f64
    ensures { result ≡ joined_at operands.now i }
{
    let mut rest = i;
    for v in operands {
        let n = dimension(v.kind());
        if rest < n {
            return v.component(rest);
        }
        rest -= n;
    }
    operand(operands, 0).component(0)
}
