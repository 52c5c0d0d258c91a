// Reading a node from the slots, by its place.
ghost use Rattle.std.specs.Prelude.{◌≡◌};
ghost use Rattle.tree.specs.Node.{prefix_node, infix_node, node_at, argument_at};

use crate::slots::{
    COMMA, FIRST_FUNCTION, FIRST_PICK, QUESTION, VARIABLE, left_at, link_at, tag_at,
};

// A node, with the places of its parts. Forms, operators, functions and indices are numbers, since
// they are what the six bits of a slot's tag hold, and whatever the slots hold is a node; an
// operator's is its punctuator's.
#[derive(Clone, Copy, Debug, PartialEq, Eq)]
pub enum Node {
    // By the number of its form.
    Literal(usize),
    // By the number that its name stands for.
    Variable(usize),
    Unary {
        operator: usize,
        part: usize,
    },
    Binary {
        operator: usize,
        left: usize,
        right: usize,
    },
    Conditional {
        colon: usize,
        test: usize,
        first: usize,
        second: usize,
    },
    // A call without arguments.
    Bare {
        function: usize,
    },
    Call {
        function: usize,
        arguments: usize,
    },
    Pick {
        index: usize,
        part: usize,
    },
}

// A comma of a call's arguments: the places of the one before it and of the others after it.
#[derive(Clone, Copy, Debug, PartialEq, Eq)]
pub struct Comma {
    pub first: usize,
    pub rest: usize,
}

// No call has as many commas.
pub const MOST_COMMAS: usize = 1024;

#[tactic(auto, unfolding(crate::specs::Node::prefix_node))]
fn prefix_node(tag: usize, link: usize) -> Node
    ensures { result ≡ prefix_node tag link }
{
    match tag {
        ..VARIABLE => Node::Literal(tag),
        VARIABLE => Node::Variable(link),
        ..FIRST_FUNCTION => Node::Unary {
            operator: tag,
            part: link,
        },
        _ if link == 0 => Node::Bare {
            function: tag - FIRST_FUNCTION,
        },
        _ => Node::Call {
            function: tag - FIRST_FUNCTION,
            arguments: link,
        },
    }
}

// The node with the tag at a place, from that of `?` on.
#[tactic(auto, unfolding(crate::specs::Node::infix_node))]
fn infix_node(slots: &[u16], at: usize) -> Node
    ensures { result ≡ infix_node slots.now at }
{
    let tag = tag_at(slots, at);
    let left = left_at(slots, at);
    let right = link_at(slots, at);
    if tag == QUESTION {
        Node::Conditional {
            colon: right,
            test: left,
            first: left_at(slots, right),
            second: link_at(slots, right),
        }
    } else {
        Node::Binary {
            operator: tag.saturating_sub(QUESTION),
            left,
            right,
        }
    }
}

#[tactic(auto, unfolding(crate::specs::Node::node_at))]
pub fn node_at(slots: &[u16], at: usize) -> Node
    ensures { result ≡ node_at slots.now at }
{
    let tag = tag_at(slots, at);
    let link = link_at(slots, at);
    match tag {
        ..QUESTION => prefix_node(tag, link),
        ..FIRST_PICK => infix_node(slots, at),
        _ => Node::Pick {
            index: tag - FIRST_PICK,
            part: link,
        },
    }
}

// The comma at a place where a call's arguments stand; without one, the last of them has its root
// there.
#[tactic(auto, unfolding(crate::specs::Node::argument_at))]
pub fn argument_at(slots: &[u16], at: usize) -> Option<Comma>
    ensures { result ≡ argument_at slots.now at }
{
    if tag_at(slots, at) == COMMA {
        Some(Comma {
            first: left_at(slots, at),
            rest: link_at(slots, at),
        })
    } else {
        None
    }
}
