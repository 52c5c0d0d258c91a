// Works out the cases of data/ by the crate number and compares, bit for bit. For each file it
// prints how many cases there are and how many differ, and each difference on a line of its own.
#![tactic(auto)]

mod literals;
mod numbers;

use cases::line;
use number::bits::{from_bits, to_bits};
use number::{arithmetic, colour, decimal, rounding};
use reports::{count, report};

const LITERALS: &str = "literals";

// The byte of the component that a number is held to.
fn byte(pattern: u64) -> u64 {
    u64::from(colour::byte(colour::component(from_bits(pattern))))
}

fn value(negative: u64, digits: u64, places: u64) -> u64 {
    to_bits(decimal::value(negative == 1, digits, line::low_byte(places)))
}

// A pattern of the file bits is only read and stored again, and stays as it is.
fn main(rt: HostRuntime) {
    let total = numbers::file(&rt, "floor", |x, _, _| rounding::floor(x))
        + numbers::file(&rt, "ceil", |x, _, _| rounding::ceil(x))
        + numbers::file(&rt, "round", |x, _, _| rounding::round(x))
        + numbers::file(&rt, "fract", |x, _, _| rounding::fract(x))
        + numbers::file(&rt, "abs", |x, _, _| arithmetic::abs(x))
        + numbers::file(&rt, "sign", |x, _, _| arithmetic::sign(x))
        + numbers::file(&rt, "min", |x, y, _| arithmetic::min(x, y))
        + numbers::file(&rt, "max", |x, y, _| arithmetic::max(x, y))
        + numbers::file(&rt, "clamp", arithmetic::clamp)
        + numbers::file(&rt, "mix", arithmetic::mix)
        + numbers::file(&rt, "remainder", |x, y, _| arithmetic::remainder(x, y))
        + numbers::file(&rt, "component", |x, _, _| colour::component(x))
        + numbers::column_file(&rt, "byte", |x, _, _| byte(x))
        + numbers::file(&rt, "bits", |x, _, _| x)
        + numbers::column_file(&rt, "value", value)
        + count::file(&rt, LITERALS, |mut file| {
            count::all(|| literals::next(&rt, &mut file, LITERALS))
        });
    report::counts(&rt, b"total", total);
}
