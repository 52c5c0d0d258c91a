// What a line of a head says before its expressions are judged, or its 8.
ghost use Rattle.std.specs.Prelude.{◌≡◌, length};
ghost use Rattle.text.specs.Parts.{fields};
ghost use Rattle.text.specs.declared.word.Line.TheVariants as word;
ghost use Rattle.style.specs.Inner.{admits_by, is_new_property, is_new_define, eight, FlagsBy, SingleBy, WordBy, ItemBy};

use checker::name;
use checker::name::Scope;
use checker::property::{kinds, packed};
use kind::kind::Kind;
use lexer::refusal::{Reason, Refusal};
use plan::layout::{
    COLOURS, CONDITIONS, DEFINES, FIRST_DEFINE, MOST_CONDITIONS, MOST_DEFINES, MOST_PROPERTIES,
    Names, PROPERTIES, Plan, SHOWS, UNDECLARED,
};
use plan::numbers::number_at;
use text::name::is_name;
use text::part;
use text::part::{Part, TAB};
use text::word::{Line, flags_of, line_of, type_of};

// What the lines before have declared: where names lie in the head, and the plan.
#[derive(Clone, Copy)]
pub(crate) struct Before<'a> {
    pub head: &'a [u8],
    pub names: &'a Names,
    pub plan: &'a Plan,
}

impl Before<'_> {
    fn is_new_property(&self, text: &[u8]) -> bool
        ensures { result ≡ is_new_property self.now.head.now self.now.names.now text.now }
    {
        is_name(text) & (UNDECLARED <= name::number(Scope::Define, self.head, self.names, text))
    }

    fn is_new_define(&self, text: &[u8]) -> bool
        ensures { result ≡ is_new_define self.now.head.now self.now.names.now text.now }
    {
        let number = name::number(Scope::Style, self.head, self.names, text);
        is_name(text) & ((number < FIRST_DEFINE) | (UNDECLARED <= number))
    }
}

// Names and expressions are parts of the line.
#[derive(Clone, Copy)]
pub(crate) enum Item {
    Property { name: Part, set: u16 },
    Define { name: Part, text: Part },
    Show(Part),
    Colour(Part),
    Condition { test: Part, colour: Part },
}

fn eight(place: usize) -> Refusal
    ensures { result ≡ eight place }
{
    Refusal {
        reason: Reason::Line,
        place,
    }
}

// Whether a line of a word may stand behind those that a plan counts.
fn admits(word: Line, plan: &Plan) -> bool
    ensures { result ≡ admits_by plan.now word }
{
    let properties = number_at(plan, PROPERTIES);
    let defines = number_at(plan, DEFINES);
    let shows = number_at(plan, SHOWS);
    let colours = number_at(plan, COLOURS);
    let conditions = number_at(plan, CONDITIONS);
    let none = (shows == 0) & ((colours == 0) & (conditions == 0));
    match word {
        Line::Prop => (properties < MOST_PROPERTIES) & ((defines == 0) & none),
        Line::Define => (defines < MOST_DEFINES) & none,
        Line::Show => shows < 1,
        Line::Color => (colours < 1) & (conditions == 0),
        Line::Cond => (conditions < MOST_CONDITIONS) & (colours == 0),
        Line::Feat => false,
    }
}

// The flags of a property with a name, whose type is known.
fn flags(line: &[u8], name: Part, kind: Kind) -> Result<Item, Refusal>
    requires { length (fields line.now) ≡ 4 }
    ensures { FlagsBy line.now name kind result }
{
    let word = part::nth(TAB, line, 3);
    let Some(flags) = flags_of(&line[word.start..word.end]) else {
        return Err(eight(word.start));
    };
    Ok(Item::Property {
        name,
        set: packed(kinds(kind, flags.absent, flags.null)),
    })
}

fn property(before: &Before, line: &[u8]) -> Result<Item, Refusal>
    ensures { WordBy word.Prop before.now line.now result }
{
    if part::count(TAB, line) != 4 {
        return Err(eight(line.len()));
    }
    let name = part::nth(TAB, line, 1);
    if !before.is_new_property(&line[name.start..name.end]) {
        return Err(eight(name.start));
    }
    let word = part::nth(TAB, line, 2);
    let Some(kind) = type_of(&line[word.start..word.end]) else {
        return Err(eight(word.start));
    };
    flags(line, name, kind)
}

fn define(before: &Before, line: &[u8]) -> Result<Item, Refusal>
    ensures { WordBy word.Define before.now line.now result }
{
    if part::count(TAB, line) != 3 {
        return Err(eight(line.len()));
    }
    let name = part::nth(TAB, line, 1);
    if !before.is_new_define(&line[name.start..name.end]) {
        return Err(eight(name.start));
    }
    let text = part::nth(TAB, line, 2);
    Ok(Item::Define { name, text })
}

// The one field behind the word of `show` or `color`.
fn single(line: &[u8]) -> Result<Part, Refusal>
    ensures { SingleBy line.now result }
{
    if part::count(TAB, line) != 2 {
        return Err(eight(line.len()));
    }
    Ok(part::nth(TAB, line, 1))
}

fn condition(before: &Before, line: &[u8]) -> Result<Item, Refusal>
    ensures { WordBy word.Cond before.now line.now result }
{
    if part::count(TAB, line) != 3 {
        return Err(eight(line.len()));
    }
    Ok(Item::Condition {
        test: part::nth(TAB, line, 1),
        colour: part::nth(TAB, line, 2),
    })
}

// The item of a line.
pub(crate) fn item_of(before: &Before, line: &[u8]) -> Result<Item, Refusal>
    ensures { ItemBy before.now line.now result }
{
    let end = part::end(TAB, line, 0);
    let Some(word) = line_of(&line[..end]) else {
        return Err(eight(0));
    };
    if !admits(word, before.plan) {
        return Err(eight(0));
    }
    match word {
        Line::Prop => property(before, line),
        Line::Define => define(before, line),
        Line::Show => Ok(Item::Show(single(line)?)),
        Line::Color => Ok(Item::Colour(single(line)?)),
        Line::Cond => condition(before, line),
        Line::Feat => Err(eight(0)),
    }
}
