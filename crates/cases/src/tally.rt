// How many cases there are, and how many of them differ.
ghost use Rattle.std.specs.Prelude.{◌≡◌};
ghost use Rattle.cases.specs.Tally.{sum_of, counted};

use std::ops::Add;

// Cases of a file, or of all.
#[derive(Clone, Copy, Debug, Default, PartialEq, Eq, Drop)]
pub struct Tally {
    pub cases: u64,
    pub differences: u64,
}

// No file has as many. Nothing says that a file ends, so the loop that reads it counts.
pub const MOST_CASES: u64 = 1_000_000;

// A sum of counts is far from where it would wrap.
impl Add for Tally {
    type Output = Tally;

    ghost add_gives = { λ a b r. r ≡ sum_of a b };

    fn add(self, other: Tally) -> Tally {
        Tally {
            cases: self.cases.wrapping_add(other.cases),
            differences: self.differences.wrapping_add(other.differences),
        }
    }
}

impl Tally {
    // A file that is missing is a difference.
    pub const MISSING: Tally = Tally {
        cases: 0,
        differences: 1,
    };

    // What an answer counts, which is whether a case agrees, or none at the end.
    pub fn of(answer: Option<bool>) -> Tally
        ensures { result ≡ counted answer }
    {
        match answer {
            None => Tally::default(),
            Some(agrees) => Tally {
                cases: 1,
                differences: u64::from(!agrees),
            },
        }
    }
}
