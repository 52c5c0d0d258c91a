// The set of kinds of an expression, or where it is refused.
ghost use Rattle.std.specs.Prelude.{◌≡◌, [], Ok};
ghost use Rattle.lexer.specs.Refusal.{refusal_at, fine};
ghost use Rattle.lexer.specs.declared.refusal.Reason.TheVariants as reason;
ghost use Rattle.kind.specs.Set.{single_of};
ghost use Rattle.tree.specs.Node.{tree_at, most_commas, arguments_at};
ghost use Rattle.checker.specs.Property.{set_at};
ghost use Rattle.checker.specs.Kinds.{literal_kind, operated, conditional_of, kinds_of_all, taken_by};
ghost use Rattle.checker.specs.Check.{kinds_at, checked_at, answer_of};
ghost use Rattle.checker.specs.Inner.{with_all, items_of};

use crate::operator::{infix_at, prefix_at};
use crate::property::set_at;
use kind::choice::{Parts, add, node_kinds};
use kind::kind::Kind;
use kind::operation::Operation;
use kind::set::Kinds;
use lexer::refusal::{Reason, Refusal};
use plan::layout::Plan;
use syntax::judge::MOST_HEIGHT;
use tree::node::{Comma, MOST_COMMAS, Node, argument_at, node_at};
use value::name::{function_at, pick_at};

// What an expression has to end in.
#[derive(Clone, Copy, Debug, PartialEq, Eq)]
pub enum Wanted {
    Boolean,
    Vec4,
    Any,
}

// A literal's kind by its form, which is a number since it lies in a slot: a number, a string, and the
// literal words.
const LITERALS: [Kind; 8] = [
    Kind::Number,
    Kind::String,
    Kind::Boolean,
    Kind::Boolean,
    Kind::Null,
    Kind::Undefined,
    Kind::Number,
    Kind::Number,
];

fn literal_kinds(form: usize) -> Kinds
    ensures { result ≡ single_of (literal_kind form) }
{
    Kinds::single(*LITERALS.get(form).unwrap_or(&Kind::Undefined))
}

// ---- a node from its parts

// 7, at a place.
fn wrong(place: usize) -> Refusal
    ensures { result ≡ refusal_at reason.Kinds place }
{
    Refusal {
        reason: Reason::Kinds,
        place,
    }
}

// A node at a place, of what it is known to be, from the sets of its parts.
fn node(at: usize, operation: Option<Operation>, parts: &[Kinds]) -> Result<Kinds, Refusal>
    ensures { result ≡ operated at operation (fine parts.now) }
{
    let operation = operation.ok_or(wrong(at))?;
    node_kinds(operation, parts).ok_or(wrong(at))
}

// The branches of a `?` at a place, whose test is to be Boolean.
fn conditional(at: usize, test: Kinds, first: Kinds, second: Kinds) -> Result<Kinds, Refusal>
    ensures { result ≡ conditional_of at (Ok test) (Ok first) (Ok second) }
{
    if test.is_within(Kinds::BOOLEAN) {
        Ok(first.union(second))
    } else {
        Err(wrong(at))
    }
}

// ---- the tree

// The kinds of the tree at a place, as deep as an allowance goes. The plan has the sets of the
// variables' numbers. One arm for each form of node.
#[cycle(all_kinds_kinds)]
fn kinds(slots: &[u16], plan: &Plan, at: usize, allowance: usize) -> Result<Kinds, Refusal>
    ensures { result ≡ kinds_at slots.now plan.now at allowance }
{
    if allowance == 0 {
        return Ok(Kinds::NUMBER);
    }
    let rest = allowance - 1;
    match node_at(slots, at) {
        Node::Literal(form) => Ok(literal_kinds(form)),
        Node::Variable(number) => Ok(set_at(plan, number)),
        Node::Unary { operator, part } => {
            let set = kinds(slots, plan, part, rest)?;
            node(at, prefix_at(operator), &[set])
        }
        Node::Binary {
            operator,
            left,
            right,
        } => {
            let left_set = kinds(slots, plan, left, rest)?;
            let right_set = kinds(slots, plan, right, rest)?;
            node(at, infix_at(operator), &[left_set, right_set])
        }
        Node::Conditional {
            colon: _,
            test,
            first,
            second,
        } => {
            let test_set = kinds(slots, plan, test, rest)?;
            let first_set = kinds(slots, plan, first, rest)?;
            let second_set = kinds(slots, plan, second, rest)?;
            conditional(at, test_set, first_set, second_set)
        }
        Node::Bare { function } => node(at, function_at(function), &[]),
        Node::Call {
            function,
            arguments,
        } => {
            let parts = all_kinds(slots, plan, arguments, rest)?;
            node(at, function_at(function), parts.as_slice())
        }
        Node::Pick { index, part } => {
            let set = kinds(slots, plan, part, rest)?;
            node(at, pick_at(index), &[set])
        }
    }
}

// The sets of a call's arguments, which begin at a place.
#[cycle(all_kinds_kinds)]
fn all_kinds(slots: &[u16], plan: &Plan, at: usize, allowance: usize) -> Result<Parts, Refusal>
    ensures { items_of result ≡ with_all [] (kinds_of_all (λ p n. set_at plan.now n)
        (arguments_at (tree_at allowance slots.now) most_commas slots.now at)) }
{
    let mut parts = Parts::new();
    let mut at = at;
    for comma in 0..MOST_COMMAS {
        let Some(Comma { first, rest }) = argument_at(slots, at) else {
            break;
        };
        add(&mut parts, kinds(slots, plan, first, allowance)?);
        at = rest;
    }
    add(&mut parts, kinds(slots, plan, at, allowance)?);
    Ok(parts)
}

// ---- the result

fn taken(wanted: Wanted) -> Kinds
    ensures { result ≡ taken_by wanted }
{
    match wanted {
        Wanted::Boolean => Kinds::BOOLEAN,
        Wanted::Vec4 => Kinds::VEC4,
        Wanted::Any => Kinds::ALL,
    }
}

// The kinds of the tree at a place, if they are wanted; a wrong result is refused at the end of the
// expression.
pub fn check(
    slots: &[u16],
    plan: &Plan,
    root: usize,
    wanted: Wanted,
    end: usize,
) -> Result<Kinds, Refusal>
    ensures { answer_of result ≡ checked_at slots.now plan.now root wanted end }
{
    let set = kinds(slots, plan, root, MOST_HEIGHT)?;
    if set.is_within(taken(wanted)) {
        Ok(set)
    } else {
        Err(wrong(end))
    }
}
