// Reads the cases of data/, asks the crates checker and evaluator and compares, numbers bit for bit.
// For each file it prints how many cases there are and how many differ, and of each difference the
// line, the text and what came.
#![tactic(auto)]

mod answer;
mod case;
mod expression;
mod feature;
mod kinds;
mod names;
mod values;

use cases::tally::Tally;
use reports::{count, report};

// What single nodes are, and their places; how nodes stand together, and what they stand for; and
// expressions at random.
const FILES: [&str; 16] = [
    "examples",
    "literals",
    "operators",
    "functions",
    "picks",
    "conditionals",
    "results",
    "orders",
    "lazy",
    "names",
    "strings",
    "numbers",
    "heights",
    "fitting",
    "damage",
    "random",
];

fn main(rt: HostRuntime) {
    let mut total = Tally::default();
    for name in FILES {
        total = total
            + count::file(&rt, name, |mut file| {
                count::all(|| case::next(&rt, &mut file, name))
            });
    }
    report::counts(&rt, b"total", total);
}
