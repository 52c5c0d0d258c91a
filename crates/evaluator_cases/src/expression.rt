// The expression of a case: what the checker says of it, and what it comes to for each feature.
use crate::{answer, feature};
use cases::line;
use checker::check::{Wanted, check};
use checker::name::{Scope, resolve};
use plan::layout::{Names, Plan};
use reports::case::Case;
use std::io::Read;
use syntax::judge::judge;

// As many as an expression has bytes at most.
const SLOTS: usize = 1024;

// An expression whose names are resolved: the head, at whose end it lies from a place on, and its tree.
#[derive(Drop)]
pub(crate) struct Expression<'a> {
    pub(crate) style: &'a [u8],
    pub(crate) base: usize,
    pub(crate) slots: &'a [u16],
    pub(crate) root: usize,
}

fn scope(line: &[u8]) -> Scope {
    if line::byte(line, 16) == b'0' {
        Scope::Define
    } else {
        Scope::Style
    }
}

fn wanted(line: &[u8]) -> Wanted {
    match line::byte(line, 18) {
        b'0' => Wanted::Boolean,
        b'1' => Wanted::Vec4,
        _ => Wanted::Any,
    }
}

// All of them are compared, whatever comes of the first.
fn features_agree(
    case: &Case<'_, impl Print>,
    file: &mut impl Read,
    expression: &Expression<'_>,
) -> bool {
    let mut same = true;
    for _ in 0..line::number(case.line, 29, 31) {
        same = feature::agrees(case, file, expression) & same;
    }
    same
}

// What the checker says of the tree whose names are resolved, and then what it comes to. A text that is
// refused before its kinds are looked at is no case of this program.
pub(crate) fn agrees(
    case: &Case<'_, impl Print>,
    file: &mut impl Read,
    head: &[u8],
    names: &Names,
    plan: &Plan,
) -> Option<bool> {
    let style = head.get(..line::number(case.line, 9, 12) as usize)?;
    let base = line::number(case.line, 5, 8) as usize;
    let text = style.get(base..)?;
    let mut slots = [0u16; SLOTS];
    let Ok(root) = judge(text, &mut slots) else {
        return None;
    };
    resolve(scope(case.line), style, names, text, &mut slots);
    let verdict = check(&slots, plan, root, wanted(case.line), text.len());
    let expression = Expression {
        style,
        base,
        slots: &slots,
        root,
    };
    Some(answer::agrees(case, style, verdict) & features_agree(case, file, &expression))
}
