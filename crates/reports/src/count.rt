// Counting the cases of a file.
ghost use Rattle.std.specs.Prelude.{◌≡◌, ◌⊎◌, Bool, List};
ghost use Rattle.cases.specs.Tally.{tally_all, tally_of};
ghost use Rattle.reports.specs.Count.{CountsTo};

use crate::report;
use cases::tally::{MOST_CASES, Tally};
use std::fs::File;
use std::rt::Files;

// Asks for one case after another until there is none, and counts what they answer.
pub fn all<F: FnMut() -> Option<bool>>(mut next: F) -> Tally
    requires { F.IsAlwaysCallable next }
    ensures { (answers : List Bool) × (last : F) × CountsTo F.step next answers last × (result ≡ tally_all answers) }
{
    let mut tally = Tally::default();
    for _done in 0..MOST_CASES {
        let Some(agrees) = next() else {
            break;
        };
        tally = tally + Tally::of(Some(agrees));
    }
    tally
}

// What is counted of a file, which is written. One that is missing counts as a difference.
pub fn file<R: Files + Print, F: FnOnce(R::File) -> Tally>(rt: &R, path: &str, count: F) -> Tally
    requires { F.IsAlwaysCallable count }
    ensures { ((opened : _) × F.post count opened result) ⊎ (result ≡ tally_of 0 1) }
{
    match File::open(rt, path) {
        Ok(opened) => report::counts(rt, path.as_bytes(), count(opened)),
        Err(_) => report::missing(rt, path.as_bytes()),
    }
}
