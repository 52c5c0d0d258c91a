// Cases of a function of up to three numbers: a line has columns for its arguments and its result.
use cases::line;
use cases::tally::Tally;
use number::bits::{from_bits, to_bits};
use reports::case::Case;
use reports::{case, count, report};
use std::io::Read;
use std::rt::Files;

const LINE: usize = 68;

fn agrees<F: Fn(u64, u64, u64) -> u64>(case: &Case<'_, impl Print>, function: &F) -> Option<bool>
    requires { F.IsAlwaysCallable function.now }
{
    let Case { rt, name, line } = *case;
    let form = b"hhhhhhhhhhhhhhhh hhhhhhhhhhhhhhhh hhhhhhhhhhhhhhhh hhhhhhhhhhhhhhhh\n";
    if !line::fits(line, form) {
        return None;
    }
    let x = line::number(line, 0, 16);
    let y = line::number(line, 17, 33);
    let z = line::number(line, 34, 50);
    let wanted = line::number(line, 51, 67);
    let got = function(x, y, z);
    if got != wanted {
        report::text(rt, name);
        let _ = println!(rt;
            " arguments {x:016x} {y:016x} {z:016x} expected {wanted:016x} got {got:016x}"
        );
    }
    Some(got == wanted)
}

fn next<F: Fn(u64, u64, u64) -> u64>(
    rt: &impl Print,
    file: &mut impl Read,
    name: &str,
    function: &F,
) -> Option<bool>
    requires { F.IsAlwaysCallable function.now }
{
    case::next(
        rt,
        file,
        name.as_bytes(),
        &mut [0u8; LINE],
        |case, _| agrees(case, function),
    )
}

// What is counted of a file whose function takes the columns as they are.
pub(crate) fn column_file<R: Files + Print, F: Fn(u64, u64, u64) -> u64>(
    rt: &R,
    name: &str,
    function: F,
) -> Tally
    requires { F.IsAlwaysCallable function }
{
    count::file(
        rt,
        name,
        |mut file|
            requires { F.IsAlwaysCallable function }
        {
            count::all(
                ||
                    requires { F.IsAlwaysCallable function }
                { next(rt, &mut file, name, &function) },
            )
        },
    )
}

// The same of a file whose columns are the bit patterns of numbers.
pub(crate) fn file<R: Files + Print, F: Fn(f64, f64, f64) -> f64>(
    rt: &R,
    name: &str,
    function: F,
) -> Tally
    requires { F.IsAlwaysCallable function }
{
    column_file(rt, name, |x, y, z| {
        to_bits(function(from_bits(x), from_bits(y), from_bits(z)))
    })
}
