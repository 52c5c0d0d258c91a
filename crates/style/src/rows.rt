// What a line adds to the names and to the plan.
ghost use Rattle.std.specs.Prelude.{◌≡◌, ◌+◌, ◌<◌, ◌≤◌, get_or, set};
ghost use Rattle.plan.specs.Layout.{set_place};
ghost use Rattle.style.specs.declared.entry.Entry.TheVariants as entry;
ghost use Rattle.style.specs.Inner.{name_with, row_with, count_with, Small, Fits, names_with, plan_with};

use crate::entry::{Entry, Expression};
use plan::layout::{
    COLOUR, COLOURS, CONDITIONS, DEFINES, FIRST_CONDITION, FIRST_DEFINE, Names, PROPERTIES, Plan,
    ROW, ROWS, SETS, SHOW, SHOWS,
};
use plan::numbers::number_at;
use text::part::Part;

// A name that is a part of the line at a place of the head.
fn with_name(names: &mut Names, number: usize, at: usize, name: Part)
    requires { (number < 48) × (at ≤ 32768) × (name.start ≤ 32768) × (name.end ≤ 32768) }
    ensures { names.new ≡ name_with number at name names.old }
{
    let p = 2 * number;
    names[p] = at + name.start;
    names[p + 1] = at + name.end;
}

fn with_set(plan: &mut Plan, number: usize, kinds: u16)
    requires { number < 48 }
    ensures { plan.new ≡ set plan.old (set_place number) kinds }
{
    plan[SETS + number] = kinds;
}

// An expression of a line at a place of the head.
fn with_row(plan: &mut Plan, row: usize, at: usize, e: Expression)
    requires { (row < 50) × Small at e }
    ensures { plan.new ≡ row_with row at e plan.old }
{
    let p = ROWS + ROW * row;
    let text = e.text;
    plan[p] = (at + text.start) as u16;
    plan[p + 1] = (at + text.end) as u16;
    plan[p + 2] = e.root as u16;
}

// One line more of a word.
fn counted(plan: &mut Plan, word: usize)
    requires { (word < 5) × (get_or plan.old word 0 < 32) }
    ensures { plan.new ≡ count_with word plan.old }
{
    plan[word] += 1;
}

fn with_define(name: Part, e: Expression, at: usize, names: &mut Names, plan: &mut Plan)
    requires { Fits plan.old at (entry.Define name e) }
    ensures { (names.new ≡ names_with plan.old at (entry.Define name e) names.old)
        × (plan.new ≡ plan_with at (entry.Define name e) plan.old) }
{
    let row = number_at(plan, DEFINES);
    counted(plan, DEFINES);
    with_name(names, FIRST_DEFINE + row, at, name);
    with_set(plan, FIRST_DEFINE + row, e.set);
    with_row(plan, row, at, e);
}

fn with_condition(test: Expression, colour: Expression, at: usize, plan: &mut Plan)
    requires { Fits plan.old at (entry.Condition test colour) }
    ensures { plan.new ≡ plan_with at (entry.Condition test colour) plan.old }
{
    let row = FIRST_CONDITION + 2 * number_at(plan, CONDITIONS);
    counted(plan, CONDITIONS);
    with_row(plan, row, at, test);
    with_row(plan, row + 1, at, colour);
}

// What a line at a place of the head adds.
pub(crate) fn with_entry(entry: Entry, at: usize, names: &mut Names, plan: &mut Plan)
    requires { Fits plan.old at entry }
    ensures { (names.new ≡ names_with plan.old at entry names.old)
        × (plan.new ≡ plan_with at entry plan.old) }
{
    match entry {
        Entry::Property { name, set } => {
            let row = number_at(plan, PROPERTIES);
            counted(plan, PROPERTIES);
            with_name(names, row, at, name);
            with_set(plan, row, set);
        }
        Entry::Define { name, expression } => with_define(name, expression, at, names, plan),
        Entry::Show(e) => {
            counted(plan, SHOWS);
            with_row(plan, SHOW, at, e);
        }
        Entry::Colour(e) => {
            counted(plan, COLOURS);
            with_row(plan, COLOUR, at, e);
        }
        Entry::Condition { test, colour } => with_condition(test, colour, at, plan),
    }
}
