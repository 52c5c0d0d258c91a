// Reads the cases of data/, asks the crates kind, value and colour and compares, numbers bit for
// bit. For each file it prints how many cases there are and how many differ, and of each difference
// the line and what came.
#![tactic(auto)]

mod case;
mod color;
mod colours;
mod doubles;
mod kinds;
mod names;
mod numbers;
mod operations;
mod rules;
mod sets;
mod shown;
mod strings;
mod values;

use reports::report;

fn main(rt: HostRuntime) {
    let total = case::file(&rt, "rules", rules::FORM, |case, _| rules::agrees(case))
        + case::file(
            &rt,
            "numbers",
            numbers::FORM,
            |case, _| numbers::agrees(case),
        )
        + case::file(&rt, "strings", strings::FORM, strings::agrees)
        + case::file(&rt, "colours", colours::FORM, colours::agrees)
        + case::file(&rt, "color", color::FORM, color::agrees)
        + case::file(
            &rt,
            "shown",
            shown::FORM,
            |case, _| Some(shown::agrees(case)),
        )
        + case::file(&rt, "sets", sets::FORM, |case, _| sets::agrees(case))
        + case::file(&rt, "names", names::FORM, names::agrees);
    report::counts(&rt, b"total", total);
}
