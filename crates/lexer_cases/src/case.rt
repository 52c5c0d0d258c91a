// One case of a file: a line, and behind it the text that the case is about.
use cases::line;
use cases::tally::Tally;
use reports::case::Case;
use reports::{case, count, read};
use std::io::Read;
use std::rt::Files;

// The next case, if there is one. Its line has the form, and `agrees` says of the text behind it
// whether the lexer agrees.
fn next<const N: usize, P: Print, R: Read, F: Fn(&Case<'_, P>, &mut R, &[u8]) -> Option<bool>>(
    rt: &P,
    file: &mut R,
    name: &str,
    form: &[u8; N],
    agrees: &F,
) -> Option<bool>
    requires { F.IsAlwaysCallable agrees.now }
{
    case::next(rt, file, name.as_bytes(), &mut [0u8; N], |case, file| {
        if !line::fits(case.line, form) {
            return None;
        }
        let mut room = [0u8; read::MOST];
        let text = read::text(file, &mut room, line::number(case.line, 0, 3) as usize)?;
        agrees(case, file, text)
    })
}

// What is counted of a file.
pub(crate) fn file<
    const N: usize,
    R: Files + Print,
    F: Fn(&Case<'_, R>, &mut R::File, &[u8]) -> Option<bool>,
>(rt: &R, name: &str, form: &[u8; N], agrees: F) -> Tally
    requires { F.IsAlwaysCallable agrees }
{
    count::file(
        rt,
        name,
        |mut file|
            requires { F.IsAlwaysCallable agrees }
        {
            count::all(
                ||
                    requires { F.IsAlwaysCallable agrees }
                { next(rt, &mut file, name, form, &agrees) },
            )
        },
    )
}
