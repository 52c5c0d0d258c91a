// The patterns of four doubles, which are a colour's.
ghost use Rattle.std.specs.Prelude.{◌≤◌};

use cases::line;
use colour::colour::Colour;
use number::bits::{from_bits, to_bits};

// Those of a line, with single spaces between.
pub(crate) fn of_line(line: &[u8], at: usize) -> [u64; 4]
    requires { at ≤ 68 }
{
    [
        line::number(line, at, at + 16),
        line::number(line, at + 17, at + 33),
        line::number(line, at + 34, at + 50),
        line::number(line, at + 51, at + 67),
    ]
}

pub(crate) fn of_colour(colour: Colour) -> [u64; 4] {
    let Colour {
        red,
        green,
        blue,
        alpha,
    } = colour;
    [to_bits(red), to_bits(green), to_bits(blue), to_bits(alpha)]
}

pub(crate) fn colour(patterns: [u64; 4]) -> Colour {
    let [red, green, blue, alpha] = patterns;
    Colour {
        red: from_bits(red),
        green: from_bits(green),
        blue: from_bits(blue),
        alpha: from_bits(alpha),
    }
}

pub(crate) fn print(rt: &impl Print, patterns: [u64; 4]) {
    for pattern in patterns {
        let _ = print!(rt; " {pattern:016x}");
    }
}
