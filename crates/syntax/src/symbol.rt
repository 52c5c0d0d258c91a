// Tokens as the grammar sees them.
ghost use Rattle.std.specs.Prelude.{◌≡◌};
ghost use Rattle.syntax.specs.Symbol.{number_of, symbol_at, is_literal, form_of, is_index, index_of, is_word, is_prefix, precedence_of};
ghost use Rattle.syntax.specs.Symbol.{function_of, member_of};
ghost use Rattle.syntax.specs.Inner.{Sound, Follows};

use lexer::punctuator::{
    AND, DIVIDE, EQUAL, GREATER, GREATER_OR_EQUAL, LESS, LESS_OR_EQUAL, MINUS, NOT, OR, PLUS,
    REMAINDER, TIMES, UNEQUAL,
};
use lexer::token::{Lexeme, Token, token_at};
use value::name::{function_number, member_index};

// A symbol's number, and where its token begins and ends. It is a number and not an enum, since the
// grammar's theorems count symbols by it (`in_order`), and a tree has an operator by its number.
#[derive(Clone, Copy)]
pub(crate) struct Symbol {
    pub number: u8,
    pub at: usize,
    pub end: usize,
}

// Punctuators have their own numbers, which are below these.
const FIRST_INDEX: u8 = 22;

const LAST_INDEX: u8 = 25;

const NUMBER: u8 = 26;

const STRING: u8 = 27;

const FIRST_WORD: u8 = 28;

const LAST_LITERAL: u8 = 33;

pub(crate) const WORD: u8 = 34;

pub(crate) const VARIABLE: u8 = 35;

pub(crate) const END: u8 = 36;

const NONE: u8 = 37;

const INDICES: u64 = 4;

const LITERAL_WORDS: u8 = 6;

fn number_of(token: Token) -> u8
    ensures { result ≡ number_of token }
{
    match token {
        Token::Number { digits, places: 0 } if digits < INDICES => FIRST_INDEX + digits as u8,
        Token::Number { .. } => NUMBER,
        Token::String => STRING,
        Token::Word(k) if k < LITERAL_WORDS => FIRST_WORD + k,
        Token::Word(_) => WORD,
        Token::Variable => VARIABLE,
        Token::Punctuator(k) if k < FIRST_INDEX => k,
        Token::Punctuator(_) => NONE,
    }
}

// The symbol at a place, after spaces.
#[tactic(auto, unfolding(crate::specs::Symbol::symbol_at))]
pub(crate) fn symbol_at(text: &[u8], from: usize) -> Symbol
    ensures { result ≡ symbol_at text.now from }
{
    match token_at(text, from) {
        Lexeme::Found { token, at, end } => Symbol {
            number: number_of(token),
            at,
            end,
        },
        Lexeme::Bad { at, end } => Symbol {
            number: NONE,
            at,
            end,
        },
        Lexeme::End => Symbol {
            number: END,
            at: text.len(),
            end: text.len(),
        },
    }
}

impl Symbol {
    // The symbol that follows.
    pub(crate) fn after(self, text: &[u8]) -> Symbol
        requires { Sound text.now self }
        ensures { Follows text.now self result }
    {
        symbol_at(text, self.end)
    }

    pub(crate) fn is_literal(self) -> bool
        ensures { result ≡ is_literal self }
    {
        matches!(self.number, FIRST_INDEX..=LAST_LITERAL)
    }

    // Which literal a symbol is: a number, a string, or a word.
    pub(crate) fn form(self) -> usize
        ensures { result ≡ form_of self }
    {
        usize::from(self.number.saturating_sub(NUMBER))
    }

    pub(crate) fn is_index(self) -> bool
        ensures { result ≡ is_index self }
    {
        matches!(self.number, FIRST_INDEX..=LAST_INDEX)
    }

    pub(crate) fn index(self) -> u8
        ensures { result ≡ index_of self }
    {
        self.number.saturating_sub(FIRST_INDEX)
    }

    pub(crate) fn is_word(self) -> bool
        ensures { result ≡ is_word self }
    {
        matches!(self.number, FIRST_WORD..=WORD)
    }

    #[tactic(auto, using(crate::proofs::Law::Operators::by_ranges))]
    pub(crate) fn is_prefix(self) -> bool
        ensures { result ≡ is_prefix self }
    {
        matches!(self.number, PLUS | MINUS | NOT)
    }

    // The level of a binary operator, from the one that binds most, and 0 for what is none.
    #[tactic(auto, using(crate::proofs::Law::Operators::by_ranges))]
    pub(crate) fn precedence(self) -> usize
        ensures { result ≡ precedence_of self.number }
    {
        match self.number {
            TIMES | DIVIDE | REMAINDER => 1,
            PLUS | MINUS => 2,
            LESS | LESS_OR_EQUAL | GREATER | GREATER_OR_EQUAL => 3,
            EQUAL | UNEQUAL => 4,
            AND => 5,
            OR => 6,
            _ => 0,
        }
    }

    // The number of the function that a word names.
    pub(crate) fn function(self, text: &[u8]) -> u8
        requires { Sound text.now self }
        ensures { result ≡ function_of text.now self }
    {
        function_number(&text[self.at..self.end]) as u8
    }

    // The index of the component that a word picks.
    pub(crate) fn member(self, text: &[u8]) -> u8
        requires { Sound text.now self }
        ensures { result ≡ member_of text.now self }
    {
        member_index(&text[self.at..self.end]) as u8
    }
}
