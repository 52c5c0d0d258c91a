// The levels of the grammar, which call each other in a cycle while the text left to read falls. Each writes the tree that it reads into
// the slots. That a symbol was read from the text (`Sound`) is said of each: a symbol that lent the text to say it by itself would
// carry it through every level.
ghost use Rattle.std.specs.Prelude.{◌≡◌, ◌≤◌};
ghost use Rattle.syntax.specs.Symbol.{levels, word};
ghost use Rattle.syntax.specs.Inner.{Sound, closed_of, member_pick_of, index_pick_of, picking_of};
ghost use Rattle.syntax.specs.Inner.{ExpressionBy, BranchesBy, LevelBy, UnaryBy, PostfixBy, PrimaryBy, CallBy};
ghost use Rattle.syntax.specs.Inner.{ArgumentsBy, WholeBy};

use crate::symbol::{END, Symbol, VARIABLE, WORD, symbol_at};
use lexer::punctuator::{
    CLOSE_ROUND, CLOSE_SQUARE, COLON, COMMA, DOT, OPEN_ROUND, OPEN_SQUARE, QUESTION,
};
use tree::write;

// A tree that has been written: the place of its root, and the symbol behind it. What is refused is the
// symbol that can't stand where it does.
#[derive(Clone, Copy)]
pub(crate) struct Parsed {
    pub root: usize,
    pub next: Symbol,
}

// One pick: its index and the symbol behind it.
#[derive(Clone, Copy)]
struct Pick {
    index: u8,
    next: Symbol,
}

const LEVELS: usize = 6;

// A whole expression: a conditional, or what stands before its `?`.
#[cycle(levels)]
fn expression(text: &[u8], slots: &mut [u16], x: Symbol) -> Result<Parsed, Symbol>
    requires { Sound text.now x }
    ensures { ExpressionBy text.now slots.old slots.new x result }
{
    let test = level(text, slots, LEVELS, x)?;
    let question = test.next;
    if question.number != QUESTION {
        return Ok(test);
    }
    let chosen = branches(text, slots, question.after(text))?;
    write::conditional(slots, question.at, test.root, chosen.root);
    Ok(Parsed {
        root: question.at,
        next: chosen.next,
    })
}

// The branches of a conditional, with the `:` as their root.
#[cycle(levels)]
fn branches(text: &[u8], slots: &mut [u16], x: Symbol) -> Result<Parsed, Symbol>
    requires { Sound text.now x }
    ensures { BranchesBy text.now slots.old slots.new x result }
{
    let first = expression(text, slots, x)?;
    let colon = first.next;
    if colon.number != COLON {
        return Err(colon);
    }
    let second = expression(text, slots, colon.after(text))?;
    write::branches(slots, colon.at, first.root, second.root);
    Ok(Parsed {
        root: colon.at,
        next: second.next,
    })
}

// Binary operators of the first k levels; with none of them, a unary expression.
#[cycle(levels)]
fn level(text: &[u8], slots: &mut [u16], k: usize, x: Symbol) -> Result<Parsed, Symbol>
    requires { Sound text.now x × (k ≤ levels) }
    ensures { LevelBy k text.now slots.old slots.new x result }
{
    if k == 0 {
        return unary(text, slots, x);
    }
    let mut left = level(text, slots, k - 1, x)?;
    while left.next.precedence() == k {
        let operator = left.next;
        let right = level(text, slots, k - 1, operator.after(text))?;
        write::binary(slots, operator.at, operator.number, left.root, right.root);
        left = Parsed {
            root: operator.at,
            next: right.next,
        };
    }
    Ok(left)
}

#[cycle(levels)]
fn unary(text: &[u8], slots: &mut [u16], x: Symbol) -> Result<Parsed, Symbol>
    requires { Sound text.now x }
    ensures { UnaryBy text.now slots.old slots.new x result }
{
    if !x.is_prefix() {
        return postfix(text, slots, x);
    }
    let part = unary(text, slots, x.after(text))?;
    write::unary(slots, x.at, x.number, part.root);
    Ok(Parsed {
        root: x.at,
        next: part.next,
    })
}

// `.` and a word, whose symbol comes after x.
#[tactic(auto, unfolding(crate::specs::Inner::member_pick_of))]
fn member_pick(text: &[u8], x: Symbol) -> Result<Pick, Symbol>
    requires { Sound text.now x }
    ensures { result ≡ member_pick_of text.now x }
{
    let word = x.after(text);
    if !word.is_word() {
        return Err(word);
    }
    Ok(Pick {
        index: word.member(text),
        next: word.after(text),
    })
}

// `[`, an index and `]`.
#[tactic(auto, unfolding(crate::specs::Inner::index_pick_of))]
fn index_pick(text: &[u8], x: Symbol) -> Result<Pick, Symbol>
    requires { Sound text.now x }
    ensures { result ≡ index_pick_of text.now x }
{
    let index = x.after(text);
    if !index.is_index() {
        return Err(index);
    }
    let close = index.after(text);
    if close.number != CLOSE_SQUARE {
        return Err(close);
    }
    Ok(Pick {
        index: index.index(),
        next: close.after(text),
    })
}

// The pick at a symbol, if one begins there.
#[tactic(auto, unfolding(crate::specs::Inner::picking_of))]
fn pick_at(text: &[u8], x: Symbol) -> Result<Option<Pick>, Symbol>
    requires { Sound text.now x }
    ensures { result ≡ picking_of text.now x }
{
    match x.number {
        DOT => Ok(Some(member_pick(text, x)?)),
        OPEN_SQUARE => Ok(Some(index_pick(text, x)?)),
        _ => Ok(None),
    }
}

// A primary and its picks.
#[cycle(levels)]
fn postfix(text: &[u8], slots: &mut [u16], x: Symbol) -> Result<Parsed, Symbol>
    requires { Sound text.now x }
    ensures { PostfixBy text.now slots.old slots.new x result }
{
    let mut part = primary(text, slots, x)?;
    while let Some(pick) = pick_at(text, part.next)? {
        write::pick(slots, part.next.at, pick.index, part.root);
        part = Parsed {
            root: part.next.at,
            next: pick.next,
        };
    }
    Ok(part)
}

// What was parsed, if the bracket that closes it comes next.
fn closed(text: &[u8], inside: Parsed) -> Result<Parsed, Symbol>
    ensures { result ≡ closed_of text.now inside }
{
    let close = inside.next;
    if close.number != CLOSE_ROUND {
        return Err(close);
    }
    Ok(Parsed {
        next: symbol_at(text, close.end),
        ..inside
    })
}

// A literal, a variable, brackets with a whole expression in them, or a call.
#[cycle(levels)]
fn primary(text: &[u8], slots: &mut [u16], x: Symbol) -> Result<Parsed, Symbol>
    requires { Sound text.now x }
    ensures { PrimaryBy text.now slots.old slots.new x result }
{
    if x.is_literal() {
        write::literal(slots, x.at, x.form());
        return Ok(Parsed {
            root: x.at,
            next: x.after(text),
        });
    }
    if x.number == VARIABLE {
        write::variable(slots, x.at, 0);
        return Ok(Parsed {
            root: x.at,
            next: x.after(text),
        });
    }
    if x.number == OPEN_ROUND {
        let inside = expression(text, slots, x.after(text))?;
        return closed(text, inside);
    }
    if x.number == WORD {
        return call(text, slots, x);
    }
    Err(x)
}

// The call of a word.
#[cycle(levels)]
fn call(text: &[u8], slots: &mut [u16], x: Symbol) -> Result<Parsed, Symbol>
    requires { Sound text.now x × (x.number ≡ word) }
    ensures { CallBy text.now slots.old slots.new x result }
{
    let bracket = x.after(text);
    if bracket.number != OPEN_ROUND {
        return Err(bracket);
    }
    let first = bracket.after(text);
    let function = x.function(text);
    if first.number == CLOSE_ROUND {
        write::bare(slots, x.at, function);
        return Ok(Parsed {
            root: x.at,
            next: first.after(text),
        });
    }
    let inside = arguments(text, slots, first)?;
    let given = closed(text, inside)?;
    write::call(slots, x.at, function, given.root);
    Ok(Parsed {
        root: x.at,
        next: given.next,
    })
}

// The arguments of a call, with the first comma as their root, if there is one.
#[cycle(levels)]
fn arguments(text: &[u8], slots: &mut [u16], x: Symbol) -> Result<Parsed, Symbol>
    requires { Sound text.now x }
    ensures { ArgumentsBy text.now slots.old slots.new x result }
{
    let first = expression(text, slots, x)?;
    let comma = first.next;
    if comma.number != COMMA {
        return Ok(first);
    }
    let rest = arguments(text, slots, comma.after(text))?;
    write::comma(slots, comma.at, first.root, rest.root);
    Ok(Parsed {
        root: comma.at,
        next: rest.next,
    })
}

// The tree of a whole text.
pub(crate) fn parse(text: &[u8], slots: &mut [u16]) -> Result<Parsed, Symbol>
    ensures { WholeBy text.now slots.old slots.new result }
{
    let whole = expression(text, slots, symbol_at(text, 0))?;
    if whole.next.number != END {
        return Err(whole.next);
    }
    Ok(whole)
}
