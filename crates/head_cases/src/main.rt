// Reads the cases of data/, asks the crates style and feature and compares, numbers bit for bit. For
// each file it prints how many cases there are and how many differ, and of each difference the line,
// the text and what came.
#![tactic(auto)]

mod answer;
mod expressions;
mod feature_case;
mod head_case;
mod names;
mod rooms;
mod values;

use cases::tally::Tally;
use reports::{count, report};

// What single lines of a head are, and how they stand together.
const HEADS: [&str; 15] = [
    "examples",
    "words",
    "counts",
    "names",
    "types",
    "orders",
    "ends",
    "limits",
    "expressions",
    "hiding",
    "first",
    "bytes",
    "room",
    "random",
    "damaged",
];

// What single fields of a feature are, and how they stand together.
const FEATURES: [&str; 10] = [
    "stated", "fields", "numbers", "vectors", "strings", "counted", "lines", "sizes", "schemas",
    "spoilt",
];

fn main(rt: HostRuntime) {
    let mut total = Tally::default();
    for name in HEADS {
        total = total
            + count::file(&rt, name, |mut file| {
                count::all(|| head_case::next(&rt, &mut file, name))
            });
    }
    for name in FEATURES {
        total = total
            + count::file(&rt, name, |mut file| {
                count::all(|| feature_case::next(&rt, &mut file, name))
            });
    }
    report::counts(&rt, b"total", total);
}
