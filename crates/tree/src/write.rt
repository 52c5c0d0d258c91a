// Writing a node into the slots, at its place, and clearing them.
ghost use Rattle.std.specs.Prelude.{◌≡◌, length, replicate};
ghost use Rattle.tree.specs.Slots.{put, join, variable_tag, function_tag, question_tag, colon_tag, operator_tag, comma_tag, pick_tag};

use crate::slots::{
    COLON, COMMA, FIRST_FUNCTION, FIRST_PICK, QUESTION, VARIABLE, set_joint, set_slot,
};

// A literal, by the number of its form.
pub fn literal(slots: &mut [u16], at: usize, form: usize)
    ensures { slots.new ≡ put slots.old at form 0 }
{
    set_slot(slots, at, form, 0);
}

// A variable, with the number that its name stands for.
pub fn variable(slots: &mut [u16], at: usize, number: usize)
    ensures { slots.new ≡ put slots.old at variable_tag number }
{
    set_slot(slots, at, VARIABLE, number);
}

pub fn unary(slots: &mut [u16], at: usize, operator: u8, part: usize)
    ensures { slots.new ≡ put slots.old at operator part }
{
    set_slot(slots, at, usize::from(operator), part);
}

pub fn binary(slots: &mut [u16], at: usize, operator: u8, left: usize, right: usize)
    ensures { slots.new ≡ join slots.old at (operator_tag operator) left right }
{
    set_joint(slots, at, QUESTION + usize::from(operator), left, right);
}

// The `:` of a conditional, between its branches.
pub fn branches(slots: &mut [u16], at: usize, first: usize, second: usize)
    ensures { slots.new ≡ join slots.old at colon_tag first second }
{
    set_joint(slots, at, COLON, first, second);
}

// The `?`, between the test and the `:`.
pub fn conditional(slots: &mut [u16], at: usize, test: usize, colon: usize)
    ensures { slots.new ≡ join slots.old at question_tag test colon }
{
    set_joint(slots, at, QUESTION, test, colon);
}

// A call without arguments.
pub fn bare(slots: &mut [u16], at: usize, function: u8)
    ensures { slots.new ≡ put slots.old at (function_tag function) 0 }
{
    set_slot(slots, at, FIRST_FUNCTION + usize::from(function), 0);
}

// A call: its arguments begin at the first comma, or at the only one of them.
pub fn call(slots: &mut [u16], at: usize, function: u8, arguments: usize)
    ensures { slots.new ≡ put slots.old at (function_tag function) arguments }
{
    set_slot(slots, at, FIRST_FUNCTION + usize::from(function), arguments);
}

// The comma between an argument and the others.
pub fn comma(slots: &mut [u16], at: usize, first: usize, rest: usize)
    ensures { slots.new ≡ join slots.old at comma_tag first rest }
{
    set_joint(slots, at, COMMA, first, rest);
}

pub fn pick(slots: &mut [u16], at: usize, index: u8, part: usize)
    ensures { slots.new ≡ put slots.old at (pick_tag index) part }
{
    set_slot(slots, at, FIRST_PICK + usize::from(index), part);
}

// Makes slots zero.
pub fn clear(slots: &mut [u16])
    ensures { slots.new ≡ replicate (length slots.old) 0 }
{
    slots.fill(0);
}
