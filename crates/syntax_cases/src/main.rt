// Reads the cases of data/, asks the crate syntax and compares. For each file it prints how many
// cases there are and how many differ, and of each difference the line, the text and what came.
#![tactic(auto)]

mod case;
mod judged;

use cases::tally::Tally;
use reports::{count, report};

// What the grammar makes of texts; what is refused beside the grammar, and what stands at its edge; and
// texts at random.
const FILES: [&str; 16] = [
    "examples",
    "short",
    "grouping",
    "unary",
    "picks",
    "conditionals",
    "calls",
    "brackets",
    "names",
    "heights",
    "limits",
    "spaces",
    "orders",
    "soup",
    "damage",
    "random",
];

fn main(rt: HostRuntime) {
    let mut total = Tally::default();
    for name in FILES {
        total = total
            + count::file(&rt, name, |mut file| {
                count::all(|| case::next(&rt, &mut file, name))
            });
    }
    report::counts(&rt, b"total", total);
}
