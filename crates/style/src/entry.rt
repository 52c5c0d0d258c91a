// An item is judged: its expressions in turn, each with its tree in the slots beside the line.
ghost use Rattle.std.specs.Prelude.{◌≡◌, ◌≤◌, length};
ghost use Rattle.style.specs.Inner.{ItemLies, FieldBy, JudgedBy, ReadBy};

use crate::expression::{Purpose, enter};
use crate::item::{Before, Item, item_of};
use lexer::refusal::Refusal;
use text::part::Part;

// An expression that is accepted: the part of the line that it is, the root of its tree, and its set of
// kinds.
#[derive(Clone, Copy)]
pub(crate) struct Expression {
    pub text: Part,
    pub root: usize,
    pub set: u16,
}

// What a line adds.
#[derive(Clone, Copy)]
pub(crate) enum Entry {
    Property {
        name: Part,
        set: u16,
    },
    Define {
        name: Part,
        expression: Expression,
    },
    Show(Expression),
    Colour(Expression),
    Condition {
        test: Expression,
        colour: Expression,
    },
}

// The expression that is a part of the line.
fn enter_part(
    purpose: Purpose,
    text: Part,
    before: &Before,
    line: &[u8],
    slots: &mut [u16],
) -> Result<Expression, Refusal>
    requires { (length slots.old ≡ length line.now) × (text.start ≤ text.end) × (text.end ≤ length line.now) }
    ensures { FieldBy purpose text before.now line.now slots.old slots.new result }
{
    let from = text.start;
    let to = text.end;
    let entered = enter(purpose, before, &line[from..to], &mut slots[from..to])?;
    Ok(Expression {
        text,
        root: entered.root,
        set: entered.set,
    })
}

fn judged(item: Item, before: &Before, line: &[u8], slots: &mut [u16]) -> Result<Entry, Refusal>
    requires { (length slots.old ≡ length line.now) × ItemLies line.now item }
    ensures { JudgedBy item before.now line.now slots.old slots.new result }
{
    match item {
        Item::Property { name, set } => Ok(Entry::Property { name, set }),
        Item::Define { name, text } => {
            let expression = enter_part(Purpose::Define, text, before, line, slots)?;
            Ok(Entry::Define { name, expression })
        }
        Item::Show(text) => {
            let test = enter_part(Purpose::Test, text, before, line, slots)?;
            Ok(Entry::Show(test))
        }
        Item::Colour(text) => {
            let colour = enter_part(Purpose::Colour, text, before, line, slots)?;
            Ok(Entry::Colour(colour))
        }
        Item::Condition { test, colour } => {
            let test = enter_part(Purpose::Test, test, before, line, slots)?;
            let colour = enter_part(Purpose::Colour, colour, before, line, slots)?;
            Ok(Entry::Condition { test, colour })
        }
    }
}

// A line, 8 first and then its expressions.
pub(crate) fn read(before: &Before, line: &[u8], slots: &mut [u16]) -> Result<Entry, Refusal>
    requires { length slots.old ≡ length line.now }
    ensures { ReadBy before.now line.now slots.old slots.new result }
{
    let item = item_of(before, line)?;
    judged(item, before, line, slots)
}
