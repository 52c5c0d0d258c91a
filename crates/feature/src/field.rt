// What a field of a feature says.
ghost use Rattle.std.specs.Prelude.{◌≡◌, ◌<◌, ◌≤◌, length};
ghost use Rattle.std.proofs.Math.Seq.{slice};
ghost use Rattle.feature.specs.Field.{string_of, field_of, conformed};

use crate::numeral::numbers;
use kind::set::Kinds;
use value::value::{Span, Value};

const LONGEST_STRING: usize = 255;

// A string, from its `=` up to its end.
fn string(start: usize, end: usize) -> Option<Value>
    requires { start < end }
    ensures { result ≡ string_of start end }
{
    let first = start + 1;
    if end - first <= LONGEST_STRING {
        Some(Value::String(Span {
            literal: false,
            start: first,
            end,
        }))
    } else {
        None
    }
}

// The field of a line that lies from a place up to an end. The words are compared in turn, since a match
// on byte strings splits the proof at each of their bytes.
pub(crate) fn read(line: &[u8], start: usize, end: usize) -> Option<Value>
    requires { (start ≤ end) × (end ≤ length line.now) }
    ensures { result ≡ field_of start (slice start end line.now) }
{
    let text = &line[start..end];
    if text.is_empty() {
        Some(Value::Undefined)
    } else if text == b"null".as_slice() {
        Some(Value::Null)
    } else if text == b"true".as_slice() {
        Some(Value::Boolean(true))
    } else if text == b"false".as_slice() {
        Some(Value::Boolean(false))
    } else if text.starts_with(b"=") {
        string(start, end)
    } else {
        numbers(text)
    }
}

// What is read, if it is of a kind that the property may have.
pub(crate) fn conforming(set: Kinds, field: Option<Value>) -> Option<Value>
    ensures { result ≡ conformed set field }
{
    field.filter(|value| set.has(value.kind()))
}
