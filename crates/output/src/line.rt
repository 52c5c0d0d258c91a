// The lines of the output, one for each feature or for a head that is refused.
ghost use Rattle.std.specs.Prelude.{◌≡◌};
ghost use Rattle.output.specs.Page.{written, Writes};
ghost use Rattle.output.specs.Inner.{line_text};
ghost use Rattle.output.specs.Line.{front, decimal, field_of, hex_digit, colour_text, colouring_text, truth_text};
ghost use Rattle.output.specs.Line.{heading, painted_line, refused_feature, refused_head};

use crate::page::Page;
use colour::colour::{Colour, Rgba8};

// No line is longer.
pub const LONGEST: usize = 72;

// What a line says. None is an `impl Display`: of a `write!` it is known what it writes if it succeeds,
// but not that it does.
#[derive(Clone, Copy)]
enum Line {
    Painted {
        number: usize,
        show: bool,
        colouring: Option<Colour>,
    },
    RefusedFeature {
        feature: usize,
        number: u8,
        place: usize,
    },
    RefusedHead {
        number: u8,
        line: usize,
        place: usize,
    },
}

// The last hex digit of a number.
fn hex_digit(n: u8) -> u8
    ensures { result ≡ hex_digit n }
{
    let d = n % 16;
    if d < 10 { b'0' + d } else { b'A' + (d - 10) }
}

// ---- fields

impl Page<'_> {
    #[inline]
    fn number(&mut self, n: usize)
        ensures { Writes self.old (decimal n) self.new }
    {
        self.text(itoa::Buffer::new().format(n).as_bytes());
    }

    // A field that is not the first: a tab stands before it.
    fn number_field(&mut self, n: usize)
        ensures { Writes self.old (field_of (decimal n)) self.new }
    {
        self.byte(b'\t');
        self.number(n);
    }

    fn truth_field(&mut self, truth: bool)
        ensures { Writes self.old (field_of (truth_text truth)) self.new }
    {
        if truth {
            self.text(b"\ttrue");
        } else {
            self.text(b"\tfalse");
        }
    }

    fn colour_field(&mut self, colour: Colour)
        ensures { Writes self.old (field_of (colour_text colour)) self.new }
    {
        let Rgba8 {
            red,
            green,
            blue,
            alpha,
        } = colour.bytes();
        self.text(&[
            b'\t',
            b'#',
            hex_digit(red / 16),
            hex_digit(red),
            hex_digit(green / 16),
            hex_digit(green),
            hex_digit(blue / 16),
            hex_digit(blue),
            hex_digit(alpha / 16),
            hex_digit(alpha),
        ]);
    }

    fn colouring_field(&mut self, colouring: Option<Colour>)
        ensures { Writes self.old (field_of (colouring_text colouring)) self.new }
    {
        match colouring {
            None => self.text(b"\tundefined"),
            Some(colour) => self.colour_field(colour),
        }
    }

    // ---- lines

    fn painted(&mut self, number: usize, show: bool, colouring: Option<Colour>)
        ensures { Writes self.old (painted_line number show colouring) self.new }
    {
        self.number(number);
        self.truth_field(show);
        self.colouring_field(colouring);
        self.byte(b'\n');
    }

    fn refused_feature(&mut self, feature: usize, number: u8, place: usize)
        ensures { Writes self.old (refused_feature feature number place) self.new }
    {
        self.number(feature);
        self.text(b"\trefused");
        self.number_field(usize::from(number));
        self.number_field(place);
        self.byte(b'\n');
    }

    fn refused_head(&mut self, number: u8, line: usize, place: usize)
        ensures { Writes self.old (refused_head number line place) self.new }
    {
        self.text(b"refused");
        self.number_field(usize::from(number));
        self.number_field(line);
        self.number_field(place);
        self.byte(b'\n');
    }

    fn line(&mut self, line: Line)
        ensures { Writes self.old (line_text line) self.new }
    {
        match line {
            Line::Painted {
                number,
                show,
                colouring,
            } => self.painted(number, show, colouring),
            Line::RefusedFeature {
                feature,
                number,
                place,
            } => self.refused_feature(feature, number, place),
            Line::RefusedHead {
                number,
                line,
                place,
            } => self.refused_head(number, line, place),
        }
    }
}

// ---- what is printed: a line that doesn't fit leaves the output as it came

// The answer is how many bytes are written, so no Option: whoever counts them adds 0 for a line that
// doesn't fit.
fn to_front(out: &mut [u8], line: &[u8]) -> usize
    ensures { (out.new, result) ≡ front out.old line.now }
{
    if out.len() < line.len() {
        return 0;
    }
    out[..line.len()].copy_from_slice(line);
    line.len()
}

impl Line {
    // Where it ends on a page of its own.
    fn end(self, room: &mut [u8]) -> usize
        ensures { (room.new, result) ≡ written (room.old, 0) (line_text self) }
    {
        let mut page = Page { room, end: 0 };
        page.line(self);
        page.end
    }

    // It is written on a page of its own first, since it is not known before how long it is.
    fn print(self, out: &mut [u8]) -> usize
        ensures { (out.new, result) ≡ front out.old (line_text self) }
    {
        let mut room = [0u8; LONGEST];
        let end = self.end(&mut room);
        to_front(out, &room[..end])
    }
}

// The first line.
pub fn heading_line(out: &mut [u8]) -> usize
    ensures { (out.new, result) ≡ front out.old heading }
{
    to_front(out, b"strip\tshow\tcolour\n")
}

// The line of a feature that is accepted. Its length is the answer, or 0 if it doesn't fit.
pub fn painted(out: &mut [u8], number: usize, show: bool, colouring: Option<Colour>) -> usize
    ensures { (out.new, result) ≡ front out.old (painted_line number show colouring) }
{
    Line::Painted {
        number,
        show,
        colouring,
    }
    .print(out)
}

pub fn refused_feature(out: &mut [u8], feature: usize, number: u8, place: usize) -> usize
    ensures { (out.new, result) ≡ front out.old (refused_feature feature number place) }
{
    Line::RefusedFeature {
        feature,
        number,
        place,
    }
    .print(out)
}

pub fn refused_head(out: &mut [u8], number: u8, line: usize, place: usize) -> usize
    ensures { (out.new, result) ≡ front out.old (refused_head number line place) }
{
    Line::RefusedHead {
        number,
        line,
        place,
    }
    .print(out)
}
