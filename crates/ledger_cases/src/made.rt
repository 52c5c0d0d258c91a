// The output of an input, made by the functions that check a head and that paint a feature.
ghost use Rattle.std.specs.Prelude.{◌≤◌, length};

use output::line::{refused_feature, refused_head};
use output::page;
use painter::paint::paint;
use style::check::{LineRefusal, check};
use text::head::head_end;
use text::part;

// The length of a feature's line, which is written at the front.
fn line(head: &[u8], feature: &[u8], number: usize, slots: &mut [u16], out: &mut [u8]) -> usize
    ensures { result ≤ length out.old }
{
    match paint(head, feature, number, out, slots) {
        Err(r) => refused_feature(out, number, u8::from(r.refusal.reason), r.refusal.place),
        Ok(painted) => painted.bytes.min(out.len()),
    }
}

// Where the lines of all features end, which begin behind the heading. No `split`: it would give a line
// behind the last LF too.
fn lines(head: &[u8], features: &[u8], slots: &mut [u16], out: &mut [u8], heading: usize) -> usize
    requires { heading ≤ length out.old }
    ensures { result ≤ length out.old }
{
    let mut end = heading;
    let mut number = 1;
    let mut at = 0;
    while at < features.len() {
        let stop = part::end(part::LINE_FEED, features, at);
        end += line(head, &features[at..stop], number, slots, &mut out[end..]);
        if features.len() <= stop {
            return end;
        }
        at = stop + 1;
        number += 1;
    }
    end
}

// Where the line of a refused head ends, behind the heading.
fn refused(r: LineRefusal, out: &mut [u8], heading: usize) -> usize
    requires { heading ≤ length out.old }
    ensures { result ≤ length out.old }
{
    let refusal = r.refusal;
    heading
        + refused_head(
            &mut out[heading..],
            u8::from(refusal.reason),
            r.line,
            refusal.place,
        )
}

// Where the output ends.
pub(crate) fn output(input: &[u8], slots: &mut [u16], out: &mut [u8]) -> usize
    ensures { result ≤ length out.new }
{
    let heading = page::text(out, 0, b"strip\tshow\tcolour\n");
    let end = head_end(input);
    match check(&input[..end], slots) {
        Err(r) => refused(r, out, heading),
        Ok(()) => lines(&input[..end], &input[end..], slots, out, heading),
    }
}
