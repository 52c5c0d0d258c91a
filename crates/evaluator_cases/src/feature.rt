// A feature of a case: a line, the text that its strings lie in, the parts of its values, each on a
// line, and what the expression comes to.
use crate::expression::Expression;
use crate::values;
use cases::line;
use evaluator::evaluate::Scene;
use evaluator::values::Values;
use number::bits::from_bits;
use plan::layout::UNDECLARED;
use reports::case::Case;
use reports::{read, report};
use std::io::Read;
use value::texts::Texts;
use value::value::{Span, Value};

const LINE: usize = 11;

const PART: usize = 24;

const COMPONENTS: usize = 4;

// What the parts of a value say: the digit of its kind, its two places and its four floats.
#[derive(Clone, Copy, Drop)]
struct Parts {
    kind: u64,
    start: usize,
    end: usize,
    floats: [f64; COMPONENTS],
}

// No part: the value is Undefined.
const NONE: Parts = Parts {
    kind: 0,
    start: 0,
    end: 0,
    floats: [0.0; COMPONENTS],
};

impl Parts {
    // A String of the feature's text is of kind 4, and one of the style's of kind 8.
    fn value(self) -> Value {
        let Parts {
            kind,
            start,
            end,
            floats,
        } = self;
        let [x, y, z, w] = floats;
        match kind {
            1 => Value::Null,
            2 => Value::Boolean(start == 1),
            3 => Value::Number(x),
            4 | 8 => Value::String(Span {
                literal: kind == 8,
                start,
                end,
            }),
            5 => Value::Vec2(x, y),
            6 => Value::Vec3(x, y, z),
            7 => Value::Vec4(x, y, z, w),
            _ => Value::Undefined,
        }
    }
}

// A part is the kind of a name's value and one of its four floats, or its two places.
fn read_part(file: &mut impl Read, values: &mut [Parts; UNDECLARED]) -> Option<()> {
    let mut room = [0u8; PART];
    let line = read::line(file, &mut room)?;
    let number = line::number(line, 0, 2) as usize;
    let i = line::number(line, 5, 6) as usize;
    if !line::fits(line, b"hh h h hhhhhhhhhhhhhhhh\n") {
        return None;
    }
    if (UNDECLARED <= number) | (COMPONENTS <= i) {
        return None;
    }
    let parts = &mut values[number];
    parts.kind = line::number(line, 3, 4);
    parts.start = line::number(line, 7, 15) as usize;
    parts.end = line::number(line, 15, 23) as usize;
    parts.floats[i] = from_bits(line::number(line, 7, 23));
    Some(())
}

// The values that so many parts make. A number that none is for stays Undefined.
fn read_values(file: &mut impl Read, count: u64, values: &mut Values) -> Option<()> {
    let mut read = [NONE; UNDECLARED];
    for _ in 0..count {
        read_part(file, &mut read)?;
    }
    for (value, parts) in values.iter_mut().zip(&read) {
        *value = parts.value();
    }
    Some(())
}

fn outcome_agrees(
    case: &Case<'_, impl Print>,
    texts: Texts<'_>,
    wanted: &[u8],
    outcome: Option<Value>,
) -> bool {
    if values::agree(texts, wanted, outcome) {
        return true;
    }
    case.text_difference(texts.style);
    report::text(case.rt, texts.feature);
    report::text(case.rt, b"\nwanted ");
    report::text(case.rt, wanted);
    values::print(case.rt, texts, outcome);
    false
}

// None if the feature's line is malformed, or what stands behind it up to what is wanted.
fn line_agrees(
    case: &Case<'_, impl Print>,
    file: &mut impl Read,
    line: &[u8],
    expression: &Expression<'_>,
) -> Option<bool> {
    if !line::fits(line, b"hhh hh hhh\n") {
        return None;
    }
    let Expression {
        style,
        base,
        slots,
        root,
    } = *expression;
    let mut feature = [0u8; read::MOST];
    let mut wanted = [0u8; read::MOST];
    let feature = read::text(file, &mut feature, line::number(line, 0, 3) as usize)?;
    let mut values = [Value::Undefined; UNDECLARED];
    read_values(file, line::number(line, 4, 6), &mut values)?;
    let texts = Texts { style, feature };
    let scene = Scene {
        texts,
        slots,
        values: &values,
        base,
    };
    let outcome = scene.evaluate(root);
    match read::text(file, &mut wanted, line::number(line, 7, 10) as usize) {
        Some(wanted) => Some(outcome_agrees(case, texts, wanted, outcome)),
        None => Some(case.malformed()),
    }
}

pub(crate) fn agrees(
    case: &Case<'_, impl Print>,
    file: &mut impl Read,
    expression: &Expression<'_>,
) -> bool {
    let mut room = [0u8; LINE];
    let line = read::line(file, &mut room).unwrap_or(b"");
    match line_agrees(case, file, line, expression) {
        Some(same) => same,
        None => Case { line, ..*case }.malformed(),
    }
}
