// Cases of an operation on values, none of them a String: a line has up to four operands and what
// is given.
ghost use Rattle.std.specs.Prelude.{◌≤◌};

use crate::{kinds, operations, values};
use cases::line;
use kind::kind::Kind;
use reports::case::Case;
use value::apply::apply;
use value::texts::Texts;
use value::value::Value;

// Five values behind the operation, each a kind and four doubles.
pub(crate) const FORM: &[u8; 335] = b"hh h \
      hhhhhhhhhhhhhhhhhhhhhhhhhhhhhhhhhhhhhhhhhhhhhhhhhhhhhhhhhhhhhhhhh \
      hhhhhhhhhhhhhhhhhhhhhhhhhhhhhhhhhhhhhhhhhhhhhhhhhhhhhhhhhhhhhhhhh \
      hhhhhhhhhhhhhhhhhhhhhhhhhhhhhhhhhhhhhhhhhhhhhhhhhhhhhhhhhhhhhhhhh \
      hhhhhhhhhhhhhhhhhhhhhhhhhhhhhhhhhhhhhhhhhhhhhhhhhhhhhhhhhhhhhhhhh \
      hhhhhhhhhhhhhhhhhhhhhhhhhhhhhhhhhhhhhhhhhhhhhhhhhhhhhhhhhhhhhhhhh\n";

// None if the kind's digit is not that of a kind other than String.
fn operand(line: &[u8], at: usize) -> Option<Value>
    requires { at ≤ 203 }
{
    match kinds::of_line(line, at)? {
        Kind::String => None,
        kind => Some(values::of_patterns(kind, patterns(line, at + 1))),
    }
}

fn patterns(line: &[u8], at: usize) -> [u64; 4]
    requires { at ≤ 270 }
{
    [
        line::number(line, at, at + 16),
        line::number(line, at + 16, at + 32),
        line::number(line, at + 32, at + 48),
        line::number(line, at + 48, at + 64),
    ]
}

// There is no String, so they do not matter.
const TEXTS: Texts<'static> = Texts {
    style: b"",
    feature: b"",
};

// All four operands are read, also those that are not given.
pub(crate) fn agrees(case: &Case<'_, impl Print>) -> Option<bool> {
    let line = case.line;
    let operation = operations::of_line(line)?;
    let operands = [
        operand(line, 5)?,
        operand(line, 71)?,
        operand(line, 137)?,
        operand(line, 203)?,
    ];
    let given = operands.get(..line::number(line, 3, 4) as usize)?;
    let got = values::columns(apply(TEXTS, operation, given));
    let [x, y, z, w] = patterns(line, 270);
    if got == [line::number(line, 269, 270), x, y, z, w] {
        return Some(true);
    }
    case.difference();
    values::print(case.rt, got);
    Some(false)
}
