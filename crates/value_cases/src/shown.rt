// Cases of a colour as it is shown: clamped, and its bytes.
use crate::doubles;
use cases::line;
use colour::colour::Rgba8;
use reports::case::Case;

pub(crate) const FORM: &[u8; 145] =
    b"hhhhhhhhhhhhhhhh hhhhhhhhhhhhhhhh hhhhhhhhhhhhhhhh hhhhhhhhhhhhhhhh \
      hhhhhhhhhhhhhhhh hhhhhhhhhhhhhhhh hhhhhhhhhhhhhhhh hhhhhhhhhhhhhhhh hhhhhhhh\n";

fn wanted_bytes(line: &[u8]) -> [u64; 4] {
    [
        line::number(line, 136, 138),
        line::number(line, 138, 140),
        line::number(line, 140, 142),
        line::number(line, 142, 144),
    ]
}

pub(crate) fn agrees(case: &Case<'_, impl Print>) -> bool {
    let colour = doubles::colour(doubles::of_line(case.line, 0));
    let clamped = doubles::of_colour(colour.clamped());
    let Rgba8 {
        red,
        green,
        blue,
        alpha,
    } = colour.bytes();
    let bytes = [
        u64::from(red),
        u64::from(green),
        u64::from(blue),
        u64::from(alpha),
    ];
    if (doubles::of_line(case.line, 68) == clamped) & (wanted_bytes(case.line) == bytes) {
        return true;
    }
    case.difference();
    let _ = print!(case.rt; "got");
    doubles::print(case.rt, clamped);
    let _ = println!(case.rt; " {red:02x} {green:02x} {blue:02x} {alpha:02x}");
    false
}
