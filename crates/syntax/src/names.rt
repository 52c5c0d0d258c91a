// Unknown functions, members and colour words.
ghost use Rattle.std.specs.Prelude.{◌≡◌};
ghost use Rattle.colour.specs.Text.{colour_of};
ghost use Rattle.tree.specs.Node.{tree_at, arguments_at, most_commas};
ghost use Rattle.syntax.specs.Names.{unknown_function, unknown_colour, unknown_call, unknown_member};
ghost use Rattle.syntax.specs.Names.{unknown_in, unknown_in_all, string_at, first, leftmost_of};
ghost use Rattle.syntax.specs.Inner.{earlier_of, first_at};

use crate::symbol::symbol_at;
use colour::colour::Colour;
use tree::node::{MOST_COMMAS, Node, argument_at, node_at};

// Functions, members and literals are numbers here, since a slot of the tree holds a number.
const FUNCTIONS: usize = 20;

const COMPONENTS: usize = 4;

const COLOR: usize = 5;

const STRING: usize = 1;

// The one of two that stands further to the left.
fn earlier(a: Option<usize>, b: Option<usize>) -> Option<usize>
    ensures { result ≡ earlier_of a b }
{
    match (a, b) {
        (Some(p), Some(q)) => Some(p.min(q)),
        _ => a.or(b),
    }
}

fn unknown_function(at: usize, function: usize) -> Option<usize>
    ensures { result ≡ leftmost_of (unknown_function at function) }
{
    (function >= FUNCTIONS).then_some(at)
}

// The member of a pick, whose word follows the dot.
fn unknown_member(text: &[u8], at: usize, index: usize) -> Option<usize>
    ensures { result ≡ leftmost_of (unknown_member text.now at index) }
{
    if index < COMPONENTS {
        return None;
    }
    let dot = symbol_at(text, at);
    let word = symbol_at(text, dot.end);
    Some(word.at)
}

// The colour that the string at a place names.
fn colour_at(text: &[u8], at: usize) -> Option<Colour>
    ensures { result ≡ colour_of (string_at text.now at) }
{
    let x = symbol_at(text, at);
    Colour::from_text(text.get(x.at + 1..x.end.saturating_sub(1))?)
}

// Whatever is the first argument of a `color`.
#[tactic(auto, using(crate::proofs::Law::Names::colours))]
fn unknown_colour(
    text: &[u8],
    slots: &[u16],
    at: usize,
    argument: usize,
    allowance: usize,
) -> Option<usize>
    ensures { result ≡ leftmost_of (unknown_colour text.now at (tree_at allowance slots.now argument)) }
{
    if allowance == 0 {
        return Some(at);
    }
    match node_at(slots, argument) {
        Node::Literal(STRING) => colour_at(text, argument).is_none().then_some(argument),
        _ => Some(at),
    }
}

// The place of the first argument.
fn first_of(slots: &[u16], at: usize) -> usize
    ensures { result ≡ first_at slots.now at }
{
    argument_at(slots, at).map_or(at, |comma| comma.first)
}

// A call's own name, and the colour that it names.
#[tactic(auto, using(crate::proofs::Law::Names::first_step))]
fn unknown_call(
    text: &[u8],
    slots: &[u16],
    at: usize,
    function: usize,
    arguments: usize,
    allowance: usize,
) -> Option<usize>
    ensures { result ≡ leftmost_of (unknown_call text.now at function
        (first (arguments_at (tree_at allowance slots.now) most_commas slots.now arguments))) }
{
    if function == COLOR {
        unknown_colour(text, slots, at, first_of(slots, arguments), allowance)
    } else {
        unknown_function(at, function)
    }
}

// The leftmost unknown name in the tree at a place.
#[cycle(unknown)]
#[tactic(auto, using(crate::proofs::Law::Names::by_node), unfolding(crate::specs::Names::unknown_in))]
pub fn unknown(text: &[u8], slots: &[u16], at: usize, allowance: usize) -> Option<usize>
    ensures { result ≡ leftmost_of (unknown_in text.now (tree_at allowance slots.now at)) }
{
    if allowance == 0 {
        return None;
    }
    let rest = allowance - 1;
    match node_at(slots, at) {
        Node::Literal(_) | Node::Variable(_) => None,
        Node::Unary { part, .. } => unknown(text, slots, part, rest),
        Node::Binary { left, right, .. } => earlier(
            unknown(text, slots, left, rest),
            unknown(text, slots, right, rest),
        ),
        Node::Conditional {
            test,
            first,
            second,
            ..
        } => earlier(
            unknown(text, slots, test, rest),
            earlier(
                unknown(text, slots, first, rest),
                unknown(text, slots, second, rest),
            ),
        ),
        Node::Bare { function } => unknown_function(at, function),
        Node::Call {
            function,
            arguments,
        } => earlier(
            unknown_call(text, slots, at, function, arguments, rest),
            unknown_among(text, slots, arguments, rest, MOST_COMMAS),
        ),
        Node::Pick { index, part } => earlier(
            unknown(text, slots, part, rest),
            unknown_member(text, at, index),
        ),
    }
}

// The same for the arguments at a place, with some commas at most.
#[cycle(unknown)]
#[tactic(auto, using(crate::proofs::Law::Names::by_node), unfolding(crate::specs::Names::unknown_in))]
fn unknown_among(
    text: &[u8],
    slots: &[u16],
    at: usize,
    allowance: usize,
    commas: usize,
) -> Option<usize>
    ensures { result ≡ leftmost_of (unknown_in_all text.now
        (arguments_at (tree_at allowance slots.now) commas slots.now at)) }
{
    match argument_at(slots, at) {
        Some(comma) if commas > 0 => earlier(
            unknown(text, slots, comma.first, allowance),
            unknown_among(text, slots, comma.rest, allowance, commas - 1),
        ),
        _ => unknown(text, slots, at, allowance),
    }
}
