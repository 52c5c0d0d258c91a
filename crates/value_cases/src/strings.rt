// Cases of `===` and `!==` of Strings, which are places in the style's text or in the feature's.
// The style's text stands behind the line, and the feature's behind that.
ghost use Rattle.std.specs.Prelude.{◌≤◌};

use crate::{kinds, operations, values};
use cases::line;
use kind::kind::Kind;
use reports::case::Case;
use reports::{read, report};
use std::io::Read;
use value::apply::apply;
use value::texts::Texts;
use value::value::{Span, Value};

pub(crate) const FORM: &[u8; 89] = b"hh hhh hhh h h hhhhhhhhhhhhhhhh hhhhhhhhhhhhhhhh \
      h h hhhhhhhhhhhhhhhh hhhhhhhhhhhhhhhh h\n";

// The number of the kind Boolean.
const BOOLEAN: u64 = 2;

// Another kind than String has its first double, or its truth, in place of the start.
fn operand(line: &[u8], at: usize) -> Option<Value>
    requires { at ≤ 49 }
{
    let start = line::number(line, at + 4, at + 20);
    match kinds::of_line(line, at)? {
        Kind::String => Some(Value::String(Span {
            literal: line::byte(line, at + 2) == b'1',
            start: start as usize,
            end: line::number(line, at + 21, at + 37) as usize,
        })),
        kind => Some(values::of_patterns(kind, [start, 0, 0, 0])),
    }
}

pub(crate) fn agrees(case: &Case<'_, impl Print>, file: &mut impl Read) -> Option<bool> {
    let line = case.line;
    let operation = operations::of_line(line)?;
    let first = operand(line, 11)?;
    let second = operand(line, 49)?;
    let mut style = [0u8; read::MOST];
    let mut feature = [0u8; read::MOST];
    let style = read::text(file, &mut style, line::number(line, 3, 6) as usize)?;
    let feature = read::text(file, &mut feature, line::number(line, 7, 10) as usize)?;
    let got = values::columns(apply(Texts { style, feature }, operation, &[first, second]));
    if got == [BOOLEAN, line::number(line, 87, 88), 0, 0, 0] {
        return Some(true);
    }
    case.text_difference(style);
    report::text(case.rt, feature);
    let _ = println!(case.rt; "");
    values::print(case.rt, got);
    Some(false)
}
