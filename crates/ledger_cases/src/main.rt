// Reads the cases of data/, each an input and its output, makes the output of the input and compares.
// For each file it prints how many cases there are and how many differ, and of each difference the
// number of the case and both outputs.
#![tactic(auto)]

mod case;
mod made;

use cases::tally::{MOST_CASES, Tally};
use reports::{count, report};

// Styles, and what they work out; and inputs, right and wrong.
const FILES: [&str; 14] = [
    "sample",
    "styles",
    "conditions",
    "defines",
    "colours",
    "strings",
    "vectors",
    "numbers",
    "heads",
    "features",
    "ends",
    "sizes",
    "random",
    "damaged",
];

fn main(rt: HostRuntime) {
    let mut total = Tally::default();
    for name in FILES {
        total = total
            + count::file(&rt, name, |mut file| {
                let mut numbers = 0..MOST_CASES;
                count::all(|| case::next(&rt, &mut file, name, numbers.next()?))
            });
    }
    report::counts(&rt, b"total", total);
}
