// The parts of a text that one byte parts: lines by LF, fields by a tab, a vector's numbers by a space.
ghost use Rattle.std.specs.Prelude.{◌≡◌, ◌≤◌, length};
ghost use Rattle.text.specs.Parts.{parted, end_from, part_at};

pub const LINE_FEED: u8 = 10;

pub const TAB: u8 = 9;

pub const SPACE: u8 = 32;

// Where a part lies in its text. It is no `Range`, which can't be copied.
#[derive(Clone, Copy, Debug, PartialEq, Eq)]
pub struct Part {
    pub start: usize,
    pub end: usize,
}

// Where the part ends that begins at a place: at the next byte that parts, or at the text's end.
pub fn end(separator: u8, text: &[u8], at: usize) -> usize
    ensures { result ≡ end_from separator text.now at }
{
    match text.get(at..) {
        Some(rest) => at + rest.iter().take_while(|b| **b != separator).count(),
        None => at,
    }
}

// How many parts a text has; an empty one has one, which is empty.
pub fn count(separator: u8, text: &[u8]) -> usize
    ensures { result ≡ length (parted separator text.now) }
{
    1 + text.iter().filter(|b| **b == separator).count()
}

// The part with an index from 0 on, or the text's end if there are fewer.
pub fn nth(separator: u8, text: &[u8], index: usize) -> Part
    ensures is { result ≡ part_at separator text.now index }
    ensures order { result.start ≤ result.end }
    ensures inside { result.end ≤ length text.now }
{
    let mut start = 0;
    for _ in 0..index {
        let stop = end(separator, text, start);
        if text.len() <= stop {
            return Part {
                start: text.len(),
                end: text.len(),
            };
        }
        start = stop + 1;
    }
    Part {
        start,
        end: end(separator, text, start),
    }
}
