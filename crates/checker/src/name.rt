// Names, and the numbers that they are resolved to.
ghost use Rattle.std.specs.Prelude.{◌≡◌, ◌-◌, ◌<◌, ◌≤◌};
ghost use Rattle.lexer.specs.Bytes.{same};
ghost use Rattle.lexer.specs.declared.token.Token.TheVariants.{Variable};
ghost use Rattle.plan.specs.Layout.{undeclared};
ghost use Rattle.checker.specs.Name.{row_at, first_row, property_row, number_of, numbered, resolved_slots};
ghost use Rattle.checker.specs.Inner.{row_below, Stands};

use lexer::bytes::same_part;
use lexer::token::{Lexeme, Token, token_at};
use plan::layout::{FIRST_DEFINE, MOST_PROPERTIES, Names, UNDECLARED};
use tree::write;

// Whose expression a name stands in: inside a define every name is a property; elsewhere, in the
// style, a define hides a property of its name.
#[derive(Clone, Copy, Debug, PartialEq, Eq)]
pub enum Scope {
    Define,
    Style,
}

// Whether a name is the one that has a number.
fn has_name(head: &[u8], names: &Names, name: &[u8], row: usize) -> bool
    requires { row < undeclared }
    ensures { result ≡ same name.now (row_at head.now names.now row) }
{
    same_part(
        name,
        0,
        name.len(),
        head,
        names[2 * row],
        names[2 * row + 1],
    )
}

// The first row from one up to another that has a name.
fn first_row(head: &[u8], names: &Names, name: &[u8], from: usize, to: usize) -> Option<usize>
    requires { (from ≤ to) × (to ≤ undeclared) }
    ensures { result ≡ row_below to (first_row (λ i. same name.now (row_at head.now names.now i)) (to - from) from) }
{
    for row in from..to {
        if has_name(head, names, name, row) {
            return Some(row);
        }
    }
    None
}

// No Option, here and in `number`: a variable's slot holds the number of undeclared names as any other.
fn property_row(head: &[u8], names: &Names, name: &[u8]) -> usize
    ensures { result ≡ property_row (λ i. same name.now (row_at head.now names.now i)) }
{
    first_row(head, names, name, 0, MOST_PROPERTIES).unwrap_or(UNDECLARED)
}

// The number of a name: a property's, a define's, or that of undeclared names.
pub fn number(scope: Scope, head: &[u8], names: &Names, name: &[u8]) -> usize
    ensures { result ≡ number_of scope head.now names.now name.now }
{
    match scope {
        Scope::Define => property_row(head, names, name),
        Scope::Style => first_row(head, names, name, FIRST_DEFINE, UNDECLARED).unwrap_or_else(
            || property_row(head, names, name),
        ),
    }
}

// The slot of a variable gets its name's number.
fn number_variable(
    scope: Scope,
    head: &[u8],
    names: &Names,
    text: &[u8],
    at: usize,
    end: usize,
    slots: &mut [u16],
)
    requires { Stands text.now Variable at end }
    ensures { slots.new ≡ numbered (number_of scope head.now names.now)
        text.now Variable at end slots.old }
{
    let name = number(scope, head, names, &text[at + 2..end - 1]);
    write::variable(slots, at, name);
}

// Each variable of a text gets its name's number, in the slots beside the text.
pub fn resolve(scope: Scope, head: &[u8], names: &Names, text: &[u8], slots: &mut [u16])
    ensures { slots.new ≡ resolved_slots (number_of scope head.now names.now)
        text.now slots.old }
{
    let mut from = 0;
    while let Lexeme::Found { token, at, end } = token_at(text, from) {
        if let Token::Variable = token {
            number_variable(scope, head, names, text, at, end, slots);
        }
        from = end;
    }
}
