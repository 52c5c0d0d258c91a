// What is printed for a feature.
ghost use Rattle.std.specs.Prelude.{ℕ, ◌≡◌, ◌≤◌, length};
ghost use Rattle.lexer.specs.Refusal.{reason_number};
ghost use Rattle.output.specs.Line.{front};
ghost use Rattle.painter.specs.Paint.{drawn_line};

use crate::answer::Given;
use output::line::{painted, refused_feature};
use style::check::LineRefusal;

// A refusal as it is printed: by a number and a place.
pub trait Refused: Copy {
    ghost printed_number: { Self → ℕ };

    ghost printed_place: { Self → ℕ };

    fn number(self) -> u8
        ensures { result ≡ printed_number self };

    fn place(self) -> usize
        ensures { result ≡ printed_place self };
}

// By its number in page 01's table.
impl Refused for LineRefusal {
    ghost printed_number = { λ r. reason_number r.refusal.reason };

    ghost printed_place = { λ r. r.refusal.place };

    fn number(self) -> u8 {
        u8::from(self.refusal.reason)
    }

    fn place(self) -> usize {
        self.refusal.place
    }
}

// A refusal by a number that the caller gives it, whether page 01's table has it or not.
#[derive(Clone, Copy, Debug, PartialEq, Eq)]
pub struct Numbered {
    pub number: u8,
    pub place: usize,
}

impl Refused for Numbered {
    ghost printed_number = { λ r. r.number };

    ghost printed_place = { λ r. r.place };

    fn number(self) -> u8 {
        self.number
    }

    fn place(self) -> usize {
        self.place
    }
}

// The line of what `given` answers, or of a refusal of the caller's own, at the front of the buffer if
// it fits: how many bytes it has.
pub fn line<R: Refused>(drawn: Result<Given, R>, number: usize, out: &mut [u8]) -> usize
    ensures is { (out.new, result) ≡ front out.old
        (drawn_line R.printed_number R.printed_place number drawn) }
    ensures inside { result ≤ length out.old }
{
    match drawn {
        Err(r) => refused_feature(out, number, r.number(), r.place()),
        Ok(given) => painted(out, number, given.show, given.colouring),
    }
}
