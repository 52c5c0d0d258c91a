// Which sides of a binary operator are worked out: "`&&`, `||` and `? :` work out only the part they
// need".
ghost use Rattle.std.specs.Prelude.{◌≡◌, Some};
ghost use Rattle.evaluator.specs.Eval.{need_of, needs_right};

use crate::truth::boolean;
use kind::operation::{Logic, Operation};
use value::value::Value;

#[derive(Clone, Copy, Debug, PartialEq, Eq)]
pub enum Need {
    Both,
    // The right side where the left is false.
    UntilTrue,
    // The right side where the left is true.
    UntilFalse,
}

pub(crate) fn need_of(found: Option<Operation>) -> Need
    ensures { result ≡ need_of found }
{
    match found {
        Some(Operation::Logic(Logic::Or)) => Need::UntilTrue,
        Some(Operation::Logic(Logic::And)) => Need::UntilFalse,
        _ => Need::Both,
    }
}

// Whether the right side is worked out, by what the left came to.
pub(crate) fn needs_right(need: Need, left: Value) -> bool
    ensures { result ≡ needs_right need (Some left) }
{
    match need {
        Need::Both => true,
        Need::UntilTrue => boolean(left) == Some(false),
        Need::UntilFalse => boolean(left) == Some(true),
    }
}
