// What the tree at a place comes to.
ghost use Rattle.std.specs.Prelude.{◌≡◌};
ghost use Rattle.evaluator.specs.Arrays.{evaluated};
ghost use Rattle.evaluator.specs.Inner.{are_over, worked_at, called_at, single_at, binary_at, branch_at};

use crate::literal::literal;
use crate::need::{Need, need_of, needs_right};
use crate::truth::boolean;
use crate::values::{Values, value_at};
use arrayvec::ArrayVec;
use checker::operator::{infix_at, prefix_at};
use kind::operation::Operation;
use syntax::judge::MOST_HEIGHT;
use tree::node::{Comma, Node, argument_at, node_at};
use value::apply::apply;
use value::name::{function_at, pick_at};
use value::texts::Texts;
use value::value::Value;

// No operation takes more operands.
const MOST_OPERANDS: usize = 4;

// Whether more arguments stand at a place than so many.
#[tactic(auto, unfolding(crate::specs::Inner::are_over))]
fn are_over(slots: &[u16], at: usize, most: usize) -> bool
    ensures { result ≡ are_over most slots.now at }
{
    if most == 0 {
        return true;
    }
    match argument_at(slots, at) {
        Some(comma) => are_over(slots, comma.rest, most - 1),
        None => false,
    }
}

// What an expression is worked out from. The slots are its own; it lies in the style's text from
// `base` on, which is to be cut at the expression's end, so that no literal reaches past it. The
// values are those of the variables' numbers, and the feature's text has their strings.
#[derive(Clone, Copy)]
pub struct Scene<'a> {
    pub texts: Texts<'a>,
    pub slots: &'a [u16],
    pub values: &'a Values,
    pub base: usize,
}

// An allowance says how high a tree may still be.
impl Scene<'_> {
    // What a function makes of the arguments at a place. Of too many none is worked out, since slots
    // that no parser wrote can make that take very long.
    #[cycle(work)]
    fn call(&self, allowance: usize, function: usize, arguments: usize) -> Option<Value>
        ensures { result ≡ called_at self.now allowance function arguments }
    {
        let operation = function_at(function)?;
        if are_over(self.slots, arguments, MOST_OPERANDS) {
            return None;
        }
        let mut operands = ArrayVec::<Value, MOST_OPERANDS>::new();
        let mut at = arguments;
        while let Some(Comma { first, rest }) = argument_at(self.slots, at) {
            operands.try_push(self.work(allowance, first)?).ok()?;
            at = rest;
        }
        operands.try_push(self.work(allowance, at)?).ok()?;
        apply(self.texts, operation, operands.as_slice())
    }

    // What an operation makes of the part at a place.
    #[cycle(work)]
    fn single(&self, allowance: usize, found: Option<Operation>, part: usize) -> Option<Value>
        ensures { result ≡ single_at self.now allowance found part }
    {
        let operation = found?;
        let a = self.work(allowance, part)?;
        apply(self.texts, operation, &[a])
    }

    // `&&` and `||` leave their right side alone if the left decides.
    #[cycle(work)]
    fn binary(&self, allowance: usize, operator: usize, left: usize, right: usize) -> Option<Value>
        ensures { result ≡ binary_at self.now allowance operator left right }
    {
        let found = infix_at(operator);
        let need = need_of(found);
        let a = self.work(allowance, left)?;
        if !needs_right(need, a) {
            return boolean(a).map(Value::Boolean);
        }
        let b = self.work(allowance, right)?;
        match need {
            Need::Both => apply(self.texts, found?, &[a, b]),
            _ => boolean(b).map(Value::Boolean),
        }
    }

    // The branch of a conditional that its test asks for.
    #[cycle(work)]
    fn conditional(
        &self,
        allowance: usize,
        test: usize,
        first: usize,
        second: usize,
    ) -> Option<Value>
        ensures { result ≡ branch_at self.now allowance test first second }
    {
        let t = self.work(allowance, test)?;
        let branch = if boolean(t)? { first } else { second };
        self.work(allowance, branch)
    }

    // The tree at a place. What lies deeper than the allowance reads as a literal number, as
    // `tree_at` has it; the tree of an expression that was judged is never that high.
    #[cycle(work)]
    fn work(&self, allowance: usize, at: usize) -> Option<Value>
        ensures { result ≡ worked_at self.now allowance at }
    {
        if allowance == 0 {
            return Some(literal(self.texts.style, self.base, at, 0));
        }
        let rest = allowance - 1;
        match node_at(self.slots, at) {
            Node::Literal(form) => Some(literal(self.texts.style, self.base, at, form)),
            Node::Variable(number) => Some(value_at(self.values, number)),
            Node::Unary { operator, part } => self.single(rest, prefix_at(operator), part),
            Node::Binary {
                operator,
                left,
                right,
            } => self.binary(rest, operator, left, right),
            Node::Conditional {
                test,
                first,
                second,
                ..
            } => self.conditional(rest, test, first, second),
            Node::Bare { function } => apply(self.texts, function_at(function)?, &[]),
            Node::Call {
                function,
                arguments,
            } => self.call(rest, function, arguments),
            Node::Pick { index, part } => self.single(rest, pick_at(index), part),
        }
    }

    // What the tree comes to whose root is at a place.
    pub fn evaluate(&self, root: usize) -> Option<Value>
        ensures { result ≡ evaluated self.now root }
    {
        self.work(MOST_HEIGHT, root)
    }
}
