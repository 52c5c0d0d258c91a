// A tree, read from the slots and printed with all its brackets, its variables by their names or by
// their numbers. What is deeper than the allowance is printed as a literal. A full page ends it too:
// slots that hold no tree can lead to nodes without end.
ghost use Rattle.std.specs.Prelude.{◌≡◌};
ghost use Rattle.tree.specs.Node.{tree_at};
ghost use Rattle.output.specs.Page.{written, Writes};
ghost use Rattle.printed.specs.Printer.{tree_text, arguments_text};
ghost use Rattle.printed.specs.Shown.{token_at, sign_of, opened_of, between_of, behind_of, called_of, variable_of};
ghost use Rattle.printed.specs.Shown.{name_of, unary_of, binary_of, conditional_of, call_of, bare_of, pick_of, shown};

use crate::word::word;
use lexer::token::{Lexeme, token_at};
use output::page::Page;
use tree::node::{Comma, MOST_COMMAS, Node, argument_at, node_at};

const PUNCTUATORS: [&[u8]; 16] = [
    b"?", b":", b"||", b"&&", b"===", b"!==", b"<", b"<=", b">", b">=", b"+", b"-", b"*", b"/",
    b"%", b"!",
];

// Their numbers as punctuators.
const QUESTION: usize = 0;

const COLON: usize = 1;

const FUNCTIONS: [&[u8]; 20] = [
    b"vec2",
    b"vec3",
    b"vec4",
    b"rgb",
    b"rgba",
    b"color",
    b"isNaN",
    b"isFinite",
    b"abs",
    b"sign",
    b"floor",
    b"ceil",
    b"round",
    b"fract",
    b"min",
    b"max",
    b"clamp",
    b"mix",
    b"dot",
    b"cross",
];

const INDICES: [&[u8]; 4] = [b"0", b"1", b"2", b"3"];

const DIGITS: [&[u8]; 16] = [
    b"0", b"1", b"2", b"3", b"4", b"5", b"6", b"7", b"8", b"9", b"a", b"b", b"c", b"d", b"e", b"f",
];

// What a tree is printed from.
#[derive(Clone, Copy)]
struct Printer<'a> {
    text: &'a [u8],
    slots: &'a [u16],
    // Whether variables are printed by their numbers.
    numbered: bool,
}

// The number that a variable's name stands for, as a $ and two hex digits.
fn variable(page: &mut Page, number: usize)
    ensures { Writes page.old (variable_of number) page.new }
{
    page.byte(b'$');
    word(page, &INDICES, number / 16);
    word(page, &DIGITS, number % 16);
}

// An operator, by its punctuator's number.
fn sign(page: &mut Page, number: usize)
    ensures { Writes page.old (sign_of number) page.new }
{
    word(page, &PUNCTUATORS, number);
}

// What stands between two parts.
fn between(page: &mut Page, operator: usize)
    ensures { Writes page.old (between_of operator) page.new }
{
    page.byte(b' ');
    sign(page, operator);
    page.byte(b' ');
}

// What stands behind the part of a pick.
fn behind(page: &mut Page, index: usize)
    ensures { Writes page.old (behind_of index) page.new }
{
    page.byte(b'[');
    word(page, &INDICES, index);
    page.byte(b']');
}

// What stands before the arguments of a call.
fn called(page: &mut Page, function: usize)
    ensures { Writes page.old (called_of function) page.new }
{
    word(page, &FUNCTIONS, function);
    page.byte(b'(');
}

// A call without arguments.
fn bare(page: &mut Page, function: usize)
    ensures { Writes page.old (bare_of function) page.new }
{
    called(page, function);
    page.byte(b')');
}

impl Printer<'_> {
    // The token at a place, as it stands in the text.
    fn leaf(&self, page: &mut Page, place: usize)
        ensures { Writes page.old (token_at self.now.text.now place) page.new }
    {
        if let Lexeme::Found { at, end, .. } = token_at(self.text, place) {
            page.part(self.text, at, end);
        }
    }

    // A variable, by its name at a place or by its number.
    fn named(&self, page: &mut Page, place: usize, number: usize)
        ensures { Writes page.old (name_of self.now.numbered self.now.text.now place number) page.new }
    {
        if self.numbered {
            variable(page, number);
        } else {
            self.leaf(page, place);
        }
    }

    #[cycle(tree)]
    fn unary(&self, page: &mut Page, operator: usize, part: usize, allowance: usize)
        ensures { Writes page.old (unary_of operator (tree_text self.now allowance part)) page.new }
    {
        page.byte(b'(');
        sign(page, operator);
        self.tree(page, part, allowance);
        page.byte(b')');
    }

    #[cycle(tree)]
    fn binary(&self, page: &mut Page, operator: usize, left: usize, right: usize, allowance: usize)
        ensures { Writes page.old (binary_of operator (tree_text self.now allowance left) (tree_text self.now allowance right)) page.new }
    {
        page.byte(b'(');
        self.tree(page, left, allowance);
        between(page, operator);
        self.tree(page, right, allowance);
        page.byte(b')');
    }

    #[cycle(tree)]
    fn conditional(
        &self,
        page: &mut Page,
        test: usize,
        first: usize,
        second: usize,
        allowance: usize,
    )
        ensures { Writes page.old (conditional_of (tree_text self.now allowance test)
            (tree_text self.now allowance first) (tree_text self.now allowance second)) page.new }
    {
        page.byte(b'(');
        self.tree(page, test, allowance);
        between(page, QUESTION);
        self.tree(page, first, allowance);
        between(page, COLON);
        self.tree(page, second, allowance);
        page.byte(b')');
    }

    // The arguments at a place, with some commas at most.
    #[cycle(tree)]
    fn arguments(&self, page: &mut Page, at: usize, allowance: usize, commas: usize)
        ensures { Writes page.old (arguments_text self.now allowance commas at) page.new }
    {
        if commas == 0 {
            return self.tree(page, at, allowance);
        }
        match argument_at(self.slots, at) {
            None => self.tree(page, at, allowance),
            Some(Comma { first, rest }) => {
                self.tree(page, first, allowance);
                page.text(b", ");
                self.arguments(page, rest, allowance, commas - 1);
            }
        }
    }

    #[cycle(tree)]
    fn call(&self, page: &mut Page, function: usize, at: usize, allowance: usize)
        ensures { Writes page.old (call_of function (arguments_text self.now allowance 1024 at)) page.new }
    {
        called(page, function);
        self.arguments(page, at, allowance, MOST_COMMAS);
        page.byte(b')');
    }

    #[cycle(tree)]
    fn pick(&self, page: &mut Page, index: usize, part: usize, allowance: usize)
        ensures { Writes page.old (pick_of index (tree_text self.now allowance part)) page.new }
    {
        self.tree(page, part, allowance);
        behind(page, index);
    }

    #[cycle(tree)]
    fn tree(&self, page: &mut Page, at: usize, allowance: usize)
        ensures { Writes page.old (tree_text self.now allowance at) page.new }
    {
        if page.room.len() <= page.end {
            return;
        }
        if allowance == 0 {
            return self.leaf(page, at);
        }
        let rest = allowance - 1;
        match node_at(self.slots, at) {
            Node::Literal(_) => self.leaf(page, at),
            Node::Variable(number) => self.named(page, at, number),
            Node::Unary { operator, part } => self.unary(page, operator, part, rest),
            Node::Binary {
                operator,
                left,
                right,
            } => self.binary(page, operator, left, right, rest),
            Node::Conditional {
                test,
                first,
                second,
                ..
            } => self.conditional(page, test, first, second, rest),
            Node::Bare { function } => bare(page, function),
            Node::Call {
                function,
                arguments,
            } => self.call(page, function, arguments, rest),
            Node::Pick { index, part } => self.pick(page, index, part, rest),
        }
    }
}

// The tree at a place, and where it ends on the page.
pub fn tree(
    page: &mut [u8],
    to: usize,
    text: &[u8],
    numbered: bool,
    slots: &[u16],
    at: usize,
    allowance: usize,
) -> usize
    ensures { (page.new, result) ≡ written (page.old, to) (shown numbered text.now (tree_at allowance slots.now at)) }
{
    let printer = Printer {
        text,
        slots,
        numbered,
    };
    let mut page = Page {
        room: page,
        end: to,
    };
    printer.tree(&mut page, at, allowance);
    page.end
}
