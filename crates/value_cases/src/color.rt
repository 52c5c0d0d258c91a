// Cases of the constructor color: a line has up to two arguments, a literal of the style's text and
// an alpha, and the vec4 that is given. The style's text stands behind the line.
use crate::{doubles, values};
use cases::line;
use kind::operation::{Constructor, Operation};
use number::bits::from_bits;
use reports::case::Case;
use reports::read;
use std::io::Read;
use value::apply::apply;
use value::texts::Texts;
use value::value::{Span, Value};

pub(crate) const FORM: &[u8; 125] = b"h hhh hhhhhhhhhhhhhhhh hhhhhhhhhhhhhhhh hhhhhhhhhhhhhhhh \
      hhhhhhhhhhhhhhhh hhhhhhhhhhhhhhhh hhhhhhhhhhhhhhhh hhhhhhhhhhhhhhhh\n";

// The number of the kind vec4.
const VEC4: u64 = 7;

fn given(line: &[u8], style: &[u8]) -> Option<Value> {
    let color = Operation::Constructor(Constructor::Color);
    let word = Value::String(Span {
        literal: true,
        start: line::number(line, 6, 22) as usize,
        end: line::number(line, 23, 39) as usize,
    });
    let alpha = Value::Number(from_bits(line::number(line, 40, 56)));
    let texts = Texts {
        style,
        feature: b"",
    };
    match line::byte(line, 0) {
        b'0' => apply(texts, color, &[]),
        b'1' => apply(texts, color, &[word]),
        _ => apply(texts, color, &[word, alpha]),
    }
}

pub(crate) fn agrees(case: &Case<'_, impl Print>, file: &mut impl Read) -> Option<bool> {
    if b'2' < line::byte(case.line, 0) {
        return None;
    }
    let mut room = [0u8; read::MOST];
    let style = read::text(file, &mut room, line::number(case.line, 2, 5) as usize)?;
    let got = values::columns(given(case.line, style));
    let [red, green, blue, alpha] = doubles::of_line(case.line, 57);
    if got == [VEC4, red, green, blue, alpha] {
        return Some(true);
    }
    case.text_difference(style);
    values::print(case.rt, got);
    Some(false)
}
