// The height of a tree.
ghost use Rattle.std.specs.Prelude.{◌≡◌, leb};
ghost use Rattle.tree.specs.Node.{tree_at, arguments_at};
ghost use Rattle.syntax.specs.Height.{height_of, height_of_all};

use tree::node::{MOST_COMMAS, Node, argument_at, node_at};

// Whether the tree at a place is no higher than an allowance.
#[cycle(within)]
#[tactic(auto, using(crate::proofs::Law::Heights::by_node), unfolding(crate::specs::Height::height_of))]
pub fn is_within(slots: &[u16], at: usize, allowance: usize) -> bool
    ensures { result ≡ leb (height_of (tree_at allowance slots.now at)) allowance }
{
    if allowance == 0 {
        return false;
    }
    let rest = allowance - 1;
    match node_at(slots, at) {
        Node::Literal(_) | Node::Variable(_) | Node::Bare { .. } => true,
        Node::Unary { part, .. } | Node::Pick { part, .. } => is_within(slots, part, rest),
        Node::Binary { left, right, .. } => {
            is_within(slots, left, rest) & is_within(slots, right, rest)
        }
        Node::Conditional {
            test,
            first,
            second,
            ..
        } => {
            is_within(slots, test, rest)
                & (is_within(slots, first, rest) & is_within(slots, second, rest))
        }
        Node::Call { arguments, .. } => are_within(slots, arguments, rest, MOST_COMMAS),
    }
}

// The same for the arguments at a place, with some commas at most.
#[cycle(within)]
#[tactic(auto, using(crate::proofs::Law::Heights::by_node), unfolding(crate::specs::Height::height_of))]
fn are_within(slots: &[u16], at: usize, allowance: usize, commas: usize) -> bool
    ensures { result ≡ leb
        (height_of_all (arguments_at (tree_at allowance slots.now) commas slots.now at)) allowance }
{
    match argument_at(slots, at) {
        Some(comma) if commas > 0 => {
            is_within(slots, comma.first, allowance)
                & are_within(slots, comma.rest, allowance, commas - 1)
        }
        _ => is_within(slots, at, allowance),
    }
}
