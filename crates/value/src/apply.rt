// An operation on values: by the rule on their kinds, and then what it makes of them.
ghost use Rattle.std.specs.Prelude.{◌≡◌, map};
ghost use Rattle.kind.specs.Rule.{rule_of};
ghost use Rattle.value.specs.Value.{kind_of, text_of};
ghost use Rattle.value.specs.Meaning.{meaning};

use crate::make::make;
use crate::texts::Texts;
use crate::value::Value;
use kind::kind::Kind;
use kind::operation::Operation;
use kind::rule::rule;

// The kind that the rule gives for the operands' kinds; no operation takes more than four. An arm for
// each count has the kinds in place, which is plainer than a buffer that is filled.
fn ruled(operation: Operation, operands: &[Value]) -> Option<Kind>
    ensures { result ≡ rule_of operation (map kind_of operands.now) }
{
    match operands {
        [] => rule(operation, &[]),
        [a] => rule(operation, &[a.kind()]),
        [a, b] => rule(operation, &[a.kind(), b.kind()]),
        [a, b, c] => rule(operation, &[a.kind(), b.kind(), c.kind()]),
        [a, b, c, d] => rule(operation, &[a.kind(), b.kind(), c.kind(), d.kind()]),
        _ => None,
    }
}

#[tactic(auto, unfolding(crate::specs::Meaning::meaning))]
pub fn apply(texts: Texts, operation: Operation, operands: &[Value]) -> Option<Value>
    ensures { result ≡ meaning (text_of texts.entry) operation operands.now }
{
    let kind = ruled(operation, operands)?;
    Some(make(texts, operation, kind, operands))
}
