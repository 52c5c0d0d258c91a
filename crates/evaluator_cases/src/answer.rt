// What the checker says of an expression: a refusal's place, or a set of kinds.
use cases::line;
use checker::property::packed;
use kind::set::Kinds;
use lexer::refusal::Refusal;
use reports::case::Case;

// The number is 7 or, with the set's byte, 0.
pub(crate) fn agrees(
    case: &Case<'_, impl Print>,
    style: &[u8],
    verdict: Result<Kinds, Refusal>,
) -> bool {
    let got = match verdict {
        Ok(set) => [0, 0, packed(set) as u64],
        Err(refusal) => [u64::from(u8::from(refusal.reason)), refusal.place as u64, 0],
    };
    let wanted = [
        line::number(case.line, 20, 21),
        line::number(case.line, 22, 25),
        line::number(case.line, 26, 28),
    ];
    if got == wanted {
        return true;
    }
    case.text_difference(style);
    let [number, place, set] = got;
    let _ = println!(case.rt; "got {number:x} {place:03x} {set:02x}");
    false
}
