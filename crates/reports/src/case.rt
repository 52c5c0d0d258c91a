// A case of a file: a line, and what belongs to it behind the line.
ghost use Rattle.std.specs.Prelude.{false, ◌≡◌, [], IsNone};
ghost use Rattle.std.specs.Io.KnownBytes.{Consumes};

use crate::{read, report};
use std::io::Read;

// The line of a case, and where its differences are written, which begin with the file's name.
#[derive(Drop)]
#[derive_where(Clone, Copy)]
pub struct Case<'a, P: Print> {
    pub rt: &'a P,
    pub name: &'a [u8],
    pub line: &'a [u8],
}

impl<'a, P: Print> Case<'a, P> {
    // Whether a case agrees whose line is malformed.
    pub fn malformed(&self) -> bool
        ensures { result ≡ false }
    {
        let Case { rt, name, line } = *self;
        report::text(rt, name);
        report::text(rt, b": malformed: ");
        report::text(rt, line);
        let _ = println!(rt; "");
        false
    }

    // The front of what is said of a difference. The line ends in a line feed, so what came stands on
    // a line of its own.
    pub fn difference(&self)
        ensures { self.now ≡ self.now }
    {
        report::text(self.rt, self.name);
        report::text(self.rt, b": ");
        report::text(self.rt, self.line);
    }

    // The same with a text behind the line.
    pub fn text_difference(&self, content: &[u8])
        ensures case_value { self.now ≡ self.now }
        ensures content_value { content.now ≡ content.now }
    {
        self.difference();
        report::text(self.rt, content);
        let _ = println!(self.rt; "");
    }
}

// Whether the next case agrees, whose line the room is for; none at the end of the file. `agrees` gives
// none for a case that is malformed, which does not agree.
pub fn next<'a, P: Print, R: Read, F: FnOnce(&Case<'a, P>, &mut R) -> Option<bool>>(
    rt: &'a P,
    file: &mut R,
    name: &'a [u8],
    room: &'a mut [u8],
    agrees: F,
) -> Option<bool>
    requires { F.IsAlwaysCallable agrees }
    ensures { IsNone result → Consumes (R.remaining file.old) (R.remaining file.new) [] }
{
    let line = read::line(file, room)?;
    let case = Case { rt, name, line };
    Some(agrees(&case, file).unwrap_or_else(|| case.malformed()))
}
