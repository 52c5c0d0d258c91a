// Reads the cases of data/, asks the crate lexer and compares. For each file it prints how many
// cases there are and how many differ, and of each difference what was expected and what came.
#![tactic(auto)]

mod case;
mod classes;
mod difference;
mod lexemes;
mod places;
mod runs;
mod stands;
mod texts;

use cases::tally::Tally;
use reports::report;

// Single tokens first, and then whole texts.
const TEXTS: [&str; 11] = [
    "punctuators",
    "bytes",
    "numbers",
    "variables",
    "words",
    "strings",
    "brackets",
    "spaces",
    "examples",
    "random",
    "long",
];

// The parts that both are made of come last.
fn main(rt: HostRuntime) {
    let mut total = Tally::default();
    for name in TEXTS {
        total = total
            + case::file(
                &rt,
                name,
                texts::FORM,
                |case, file, text| Some(texts::agrees(case, file, text)),
            );
    }
    total = total
        + case::file(
            &rt,
            "places",
            places::FORM,
            |case, file, text| Some(places::agrees(case, file, text)),
        )
        + case::file(
            &rt,
            "runs",
            runs::FORM,
            |case, _, text| Some(runs::agrees(case, text)),
        )
        + case::file(&rt, "stands", stands::FORM, stands::agrees)
        + case::file(
            &rt,
            "classes",
            classes::FORM,
            |case, _, text| Some(classes::agrees(case, text)),
        );
    report::counts(&rt, b"total", total);
}
