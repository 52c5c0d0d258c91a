// One expression of a line, by page 01's numbers 1 to 7.
ghost use Rattle.std.specs.Prelude.{◌≡◌, length};
ghost use Rattle.style.specs.Inner.{scope_of, wanted_of, EnteredBy};

use crate::item::Before;
use checker::check::{Wanted, check};
use checker::name::{Scope, resolve};
use checker::property::packed;
use lexer::refusal::Refusal;
use syntax::judge::judge;

// What an expression is for: a define, a test (`show` and conditions), or a colour.
#[derive(Clone, Copy)]
pub(crate) enum Purpose {
    Define,
    Test,
    Colour,
}

impl Purpose {
    fn scope(self) -> Scope
        ensures { result ≡ scope_of self }
    {
        match self {
            Purpose::Define => Scope::Define,
            Purpose::Test | Purpose::Colour => Scope::Style,
        }
    }

    fn wanted(self) -> Wanted
        ensures { result ≡ wanted_of self }
    {
        match self {
            Purpose::Define => Wanted::Any,
            Purpose::Test => Wanted::Boolean,
            Purpose::Colour => Wanted::Vec4,
        }
    }
}

// The root of the tree of an expression, and its set of kinds.
#[derive(Clone, Copy)]
pub(crate) struct Entered {
    pub root: usize,
    pub set: u16,
}

// Judges an expression and lays its tree into the slots beside it, every variable with its name's
// number.
pub(crate) fn enter(
    purpose: Purpose,
    before: &Before,
    text: &[u8],
    slots: &mut [u16],
) -> Result<Entered, Refusal>
    requires { length slots.old ≡ length text.now }
    ensures { EnteredBy purpose before.now text.now slots.old slots.new result }
{
    let root = judge(text, slots)?;
    resolve(purpose.scope(), before.head, before.names, text, slots);
    let set = check(slots, before.plan, root, purpose.wanted(), text.len())?;
    Ok(Entered {
        root,
        set: packed(set),
    })
}
