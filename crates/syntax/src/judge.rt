// The judgement on an expression: page 01's numbers 1 to 6, each over the whole of it before the next.
ghost use Rattle.std.specs.Prelude.{◌≡◌, ◌≤◌, length};
ghost use Rattle.tree.specs.Node.{tree_at};
ghost use Rattle.syntax.specs.Sizes.{most_bytes, most_height};
ghost use Rattle.syntax.specs.Parser.{parse_of};
ghost use Rattle.syntax.specs.Judge.{by_grammar, judged_of, root_of, judgement_of, answer_of, kept, slots_after};
ghost use Rattle.syntax.specs.Inner.{tree_judged, JudgedBy};

use crate::height::is_within;
use crate::names::unknown;
use crate::parse::parse;
use lexer::refusal::{Reason, Refusal};
use lexer::scan::scan;
use tree::write::clear;

const MOST_BYTES: usize = 1024;

pub const MOST_HEIGHT: usize = 64;

// 5 and 6, over the tree at a place.
fn tree_judgement(text: &[u8], slots: &[u16], root: usize) -> Result<usize, Refusal>
    ensures { answer_of result ≡ tree_judged text.now root (tree_at most_height slots.now root) }
{
    if !is_within(slots, root, MOST_HEIGHT) {
        return Err(Refusal {
            reason: Reason::Height,
            place: 0,
        });
    }
    match unknown(text, slots, root, MOST_HEIGHT) {
        Some(place) => Err(Refusal {
            reason: Reason::Name,
            place,
        }),
        None => Ok(root),
    }
}

// From 4 on.
fn grammar_judgement(text: &[u8], slots: &mut [u16]) -> Result<usize, Refusal>
    requires { (length text.now ≤ most_bytes) × (length slots.old ≡ length text.now) }
    ensures { JudgedBy (by_grammar (parse_of text.now) text.now) slots.old slots.new result }
{
    let whole = parse(text, slots).map_err(|x| Refusal {
        reason: Reason::Grammar,
        place: x.at,
    })?;
    tree_judgement(text, slots, whole.root)
}

// From 1 on.
fn size_judgement(text: &[u8], slots: &mut [u16]) -> Result<usize, Refusal>
    requires { length slots.old ≡ length text.now }
    ensures { JudgedBy (judged_of text.now) slots.old slots.new result }
{
    if MOST_BYTES < text.len() {
        return Err(Refusal {
            reason: Reason::Size,
            place: MOST_BYTES,
        });
    }
    scan(text)?;
    grammar_judgement(text, slots)
}

// The slots beside the text, which hold its tree or nothing.
fn own_judgement(text: &[u8], slots: &mut [u16]) -> Result<usize, Refusal>
    requires { length slots.old ≡ length text.now }
    ensures { (answer_of result ≡ root_of (judged_of text.now))
        × (slots.new ≡ kept (judged_of text.now) slots.old) }
{
    let judgement = size_judgement(text, slots);
    if judgement.is_err() {
        clear(slots);
    }
    judgement
}

// Judges an expression, and lays its tree into the first slots, one for each of its bytes.
pub fn judge(text: &[u8], slots: &mut [u16]) -> Result<usize, Refusal>
    ensures { (answer_of result ≡ judgement_of (length slots.old) text.now)
        × (slots.new ≡ slots_after slots.old text.now) }
{
    let n = text.len();
    if slots.len() < n {
        return Err(Refusal {
            reason: Reason::Room,
            place: 0,
        });
    }
    own_judgement(text, &mut slots[..n])
}
