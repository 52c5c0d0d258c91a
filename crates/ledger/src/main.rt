// Reads a style and its features from standard input, and prints a line for each feature.
#![tactic(auto)]

mod features;
mod input;
mod writer;

use features::Style;
use input::Input;
use output::line::{LONGEST, refused_head};
use output::page;
use plan::layout::PLAN;
use std::io;
use style::check::LineRefusal;
use style::head::{ROOM_SIZE, compile};
use text::head::head_end;
use writer::Writer;

// More bytes than a head may have, so that one that is too long is seen to be.
const WINDOW: usize = 65536;

// More than the window has, so that what it holds of the features fits.
const BLOCK: usize = 131072;

fn print_refusal(writer: &mut Writer, r: LineRefusal) {
    let mut line = [0u8; LONGEST];
    let end = refused_head(
        &mut line,
        u8::from(r.refusal.reason),
        r.line,
        r.refusal.place,
    );
    writer.text(&line[..end]);
}

// Lends the block of the input. The first bytes of the features are read already.
fn print_features(input: &mut Input, writer: &mut Writer, style: Style<'_>, first: &[u8]) {
    let mut block = [0u8; BLOCK];
    let held = page::text(&mut block, 0, first);
    features::print(input, writer, style, &mut block, held);
}

fn print(input: &mut Input, writer: &mut Writer, window: &[u8]) {
    let (head, first) = window.split_at(head_end(window));
    let mut slots = [0u16; ROOM_SIZE];
    let mut plan = [0u16; PLAN];
    match compile(head, &mut plan, &mut slots) {
        Err(r) => print_refusal(writer, r),
        Ok(()) => {
            let style = Style {
                head,
                plan: &plan,
                slots: &slots,
            };
            print_features(input, writer, style, first);
        }
    }
}

// What of reading or writing failed is the program's error.
fn main(rt: HostRuntime) -> io::Result<()> {
    let mut input = Input {
        stdin: rt.stdin(),
        done: Ok(()),
    };
    let mut writer = Writer::new(rt.stdout());
    let mut window = [0u8; WINDOW];
    let held = input.fill(&mut window, 0);
    writer.text(b"strip\tshow\tcolour\n");
    print(&mut input, &mut writer, &window[..held]);
    input.done?;
    writer.done()
}
