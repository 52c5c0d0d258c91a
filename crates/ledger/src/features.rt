// The lines of the features, each with its number.
ghost use Rattle.std.specs.Prelude.{◌≡◌, ◌<◌, ◌≤◌, ◌+◌, IfSome, length};

use crate::input;
use crate::input::Input;
use crate::writer::Writer;
use evaluator::values::Values;
use painter::given::given;
use plan::layout::{Plan, UNDECLARED};
use value::value::Value;

// The first number that is refused. The output ends with its line.
const LAST: usize = 1_000_000;

// A line that is longer is refused, whatever else it has.
const MOST_BYTES: usize = 4096;

// No input has as many. Nothing says that it ends, so the loop that reads it counts.
const MOST_BLOCKS: u64 = 0x1_0000_0000_0000;

// A head, and what it is compiled to.
#[derive(Clone, Copy, Drop)]
pub(crate) struct Style<'a> {
    pub(crate) head: &'a [u8],
    pub(crate) plan: &'a Plan,
    pub(crate) slots: &'a [u16],
}

// The features of a style, as far as their lines are done.
#[derive(Drop)]
struct Features<'a> {
    style: Style<'a>,
    // Room for the values of a feature, which each uses in turn.
    values: Values,
    // The number of the next line.
    number: usize,
    // Whether the next block begins inside a line that is done, because it was too long.
    inside: bool,
}

impl<'a> Features<'a> {
    // The next feature.
    fn add(&mut self, writer: &mut Writer, feature: &[u8])
        requires { self.old.number ≤ LAST }
        ensures { self.new.number ≡ self.old.number + 1 }
    {
        let Style { head, plan, slots } = self.style;
        let number = self.number;
        let drawn = given(head, plan, slots, feature, number, &mut self.values);
        writer.line(drawn, number);
        self.number += 1;
    }

    // What a block has behind the rest of a line that is done.
    fn begin<'b>(&mut self, block: &'b [u8]) -> &'b [u8]
        ensures { length result.now ≤ length block.now }
    {
        if !self.inside {
            return block;
        }
        match line_end(block) {
            None => &block[block.len()..],
            Some(end) => {
                self.inside = false;
                &block[end + 1..]
            }
        }
    }

    // The lines that an LF ends. Gives what is left behind them, which an iterator of lines would not.
    fn ended_lines<'b>(&mut self, writer: &mut Writer, begun: &'b [u8]) -> &'b [u8]
        ensures { length result.now ≤ length begun.now }
    {
        let mut rest = begun;
        while self.number <= LAST {
            let Some(end) = line_end(rest) else {
                break;
            };
            self.add(writer, &rest[..end]);
            rest = &rest[end + 1..];
        }
        rest
    }

    // The lines of a block. The last, which no LF ends, is one of them if the input ends with the block,
    // or if it is too long already. Gives how many bytes of the block are left.
    fn lines(&mut self, writer: &mut Writer, block: &[u8], input_ends: bool) -> usize
        ensures { result ≤ length block.now }
    {
        let begun = self.begin(block);
        let left = self.ended_lines(writer, begun);
        let ends = (input_ends & !left.is_empty()) | (MOST_BYTES < left.len());
        if (LAST < self.number) | !ends {
            return left.len();
        }
        self.add(writer, left);
        self.inside = true;
        0
    }
}

// Where the first line of a text ends, if an LF ends it.
fn line_end(text: &[u8]) -> Option<usize>
    ensures { IfSome result (λ end. end < length text.now) }
{
    text.iter().position(|byte| *byte == b'\n')
}

// The lines of all features, of which the block holds the first bytes already.
pub(crate) fn print(
    input: &mut Input,
    writer: &mut Writer,
    style: Style<'_>,
    block: &mut [u8],
    held: usize,
)
    requires { held ≤ length block.old }
{
    let mut features = Features {
        style,
        values: [Value::Undefined; UNDECLARED],
        number: 1,
        inside: false,
    };
    let mut kept = held;
    for _block in 0..MOST_BLOCKS {
        let end = input.fill(block, kept);
        let input_ends = end < block.len();
        let left = features.lines(writer, &block[..end], input_ends);
        if input_ends | (LAST < features.number) | writer.has_failed() {
            break;
        }
        kept = input::keep(block, end - left);
    }
    writer.flush();
}
