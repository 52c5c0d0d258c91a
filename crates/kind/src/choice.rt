// The set of kinds of a node, from the sets of its parts: what some choice of kinds, one from each
// set, gives.
ghost use Rattle.std.specs.Prelude.{◌≡◌, ◌+◌, ◌≤◌, ◌++◌, [], length};
ghost use Rattle.arrayvec.specs.ArrayVec.{array_vec_len};
ghost use Rattle.kind.specs.Choice.{node_kinds, held, with_of};
ghost use Rattle.kind.specs.Inner.{choices_of};
ghost use Rattle.kind.specs.Rule.{rule_of};

use crate::kind::Kind;
use crate::operation::Operation;
use crate::rule::rule;
use crate::set::Kinds;
use arrayvec::ArrayVec;

// No operation takes more operands.
const MOST_OPERANDS: usize = 4;

// Of more parts than that only whether one is empty matters: the last one kept stands for all behind it.
pub const MOST_PARTS: usize = 5;

// The sets of a node's parts: the first so many. Those behind them are empty, so that two are equal
// exactly if they hold the same.
#[derive(Clone, Copy, Debug, Default, PartialEq, Eq)]
pub struct Parts {
    sets: [Kinds; MOST_PARTS],
    count: usize,
}

impl Parts {
    // No parts.
    pub fn new() -> Parts
        ensures { held result ≡ [] }
    {
        Parts {
            sets: [Kinds::NONE; MOST_PARTS],
            count: 0,
        }
    }

    pub fn as_slice(&self) -> &[Kinds]
        ensures { result.now ≡ held self.now }
    {
        self.sets.get(..self.count).unwrap_or(&self.sets)
    }
}

// Adds one more part.
pub fn add(parts: &mut Parts, set: Kinds)
    ensures { held parts.new ≡ with_of (held parts.old) set }
{
    let count = parts.count;
    let empty = set.is_empty();
    if count < MOST_PARTS {
        parts.sets[count] = set;
        parts.count = count + 1;
    } else if empty {
        parts.sets[MOST_OPERANDS] = Kinds::NONE;
    }
}

// What the choices from some parts give, operands before them being chosen.
fn choices(
    operation: Operation,
    chosen: &mut ArrayVec<Kind, MOST_OPERANDS>,
    parts: &[Kinds],
) -> Option<Kinds>
    requires { array_vec_len chosen.old + length parts.now ≤ 4 }
    ensures given { result ≡ choices_of (λ ks. rule_of operation (chosen.old.items ++ ks)) parts.now }
    ensures kept { chosen.new.items ≡ chosen.old.items }
{
    let [set, rest @ ..] = parts else {
        return rule(operation, chosen).map(Kinds::single);
    };
    let mut kinds = Kinds::NONE;
    for kind in &Kind::ALL {
        if set.has(*kind) {
            chosen.push(*kind);
            let given = choices(operation, chosen, rest);
            chosen.pop();
            let more = given?;
            kinds = kinds.union(more);
        }
    }
    Some(kinds)
}

// The set of a node: refused exactly if some choice faults, and else the kinds that its choices give.
pub fn node_kinds(operation: Operation, parts: &[Kinds]) -> Option<Kinds>
    ensures { result ≡ node_kinds operation parts.now }
{
    if parts.len() > MOST_OPERANDS {
        // Every choice faults, and there is one unless some set is empty.
        return parts
            .iter()
            .any(|set| set.is_empty())
            .then_some(Kinds::NONE);
    }
    choices(operation, &mut ArrayVec::new(), parts)
}
