// A feature's line: its size, its number, its word and its fields.
ghost use Rattle.std.specs.Prelude.{◌≡◌, ◌≤◌, length, Some, None, Result, Ok, Err};
ghost use Rattle.lexer.specs.Refusal.{refusal_at};
ghost use Rattle.feature.specs.Feature.{feature_size, sets_of, feature_of, answer_of, values_after};
ghost use Rattle.feature.specs.Inner.{FieldsBy};

use crate::field;
use crate::field::conforming;
use checker::property::set_at;
use evaluator::values::{Values, store};
use lexer::refusal::{Reason, Refusal};
use plan::layout::{PROPERTIES, Plan};
use plan::numbers::number_at;
use text::head::is_feature;
use text::part;
use text::part::TAB;

const MOST_BYTES: usize = 4096;

const MOST_FEATURES: usize = 999_999;

fn refused(reason: Reason, place: usize) -> Result<(), Refusal>
    ensures { result ≡ Err (refusal_at reason place) }
{
    Err(Refusal { reason, place })
}

// The fields in turn, from behind the first tab on. Each value is stored for its property, up to the
// first field that doesn't conform. A refusal and a string need a field's place, which parts alone, as
// `split` gives them, don't have.
fn read_fields(
    plan: &Plan,
    properties: usize,
    line: &[u8],
    values: &mut Values,
) -> Result<(), Refusal>
    requires { length line.now ≤ feature_size }
    ensures { FieldsBy plan.now properties line.now values.old values.new result }
{
    if part::count(TAB, line) - 1 != properties {
        return refused(Reason::Feature, line.len());
    }
    let mut at = part::end(TAB, line, 0) + 1;
    for i in 0..properties {
        let end = part::end(TAB, line, at);
        let Some(value) = conforming(set_at(plan, i), field::read(line, at, end)) else {
            return refused(Reason::Feature, at);
        };
        store(values, i, value);
        at = end + 1;
    }
    Ok(())
}

// Reads a line with a field for each property of a plan, and stores their values.
pub fn read(plan: &Plan, number: usize, line: &[u8], values: &mut Values) -> Result<(), Refusal>
    ensures answer { answer_of result ≡ feature_of (sets_of plan.now) number line.now }
    ensures values { values.new ≡ values_after (sets_of plan.now) number line.now values.old }
{
    if MOST_BYTES < line.len() {
        return refused(Reason::Size, MOST_BYTES);
    }
    if MOST_FEATURES < number {
        return refused(Reason::Size, MOST_FEATURES);
    }
    if !is_feature(line) {
        return refused(Reason::Feature, 0);
    }
    read_fields(plan, number_at(plan, PROPERTIES), line, values)
}
