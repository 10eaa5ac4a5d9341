//! Tokens as the grammar sees them.

ghost use Rattle.std.specs.Prelude.{◌≡◌, IfOk};
ghost use Rattle.asm_grammar_nodes.specs.Views.{lexeme_view, word_view};

use sem_words::{JsOp, Text};
use std::alloc::{AllocError, Global};

/// What a token is to the grammar: one variant for each word and sign that it tells apart.
#[derive(Clone, Copy, PartialEq, Eq)]
pub enum Class {
    /// A name that isn't reserved.
    Identifier,
    Break,
    Case,
    Continue,
    Default,
    Do,
    Else,
    For,
    Function,
    If,
    /// `in` and `instanceof`
    In,
    New,
    Return,
    Switch,
    Var,
    While,
    /// Any other reserved word.
    Reserved,
    Number,
    Decimal,
    /// A quoted `use asm`.
    Directive,
    OpenBrace,
    CloseBrace,
    OpenParen,
    CloseParen,
    OpenBracket,
    CloseBracket,
    Dot,
    Semicolon,
    Comma,
    Question,
    Colon,
    Equals,
    Operator(JsOp),
    Tilde,
    Bang,
    /// A token that asm.js has no use for.
    Other,
}

/// A token with its class.
#[derive(Clone, Copy)]
pub struct Lexeme<'a> {
    pub class: Class,
    /// The token's bytes.
    pub text: &'a [u8],
    /// The value of a number, and 0 for any other token.
    pub value: u64,
    /// Whether a line end stands before it.
    pub line: bool,
    /// The offset of its first byte.
    pub at: u64,
}

/// A token that owns its text.
#[derive(Drop)]
pub struct Word {
    pub class: Class,
    pub text: Text,
    pub value: u64,
    pub line: bool,
    pub at: u64,
}

impl Word {
    /// A copy of the token.
    pub fn of(alloc: Global, token: &Lexeme<'_>) -> Result<Word, AllocError>
        ensures { IfOk result (λ w. word_view w ≡ lexeme_view token.now) }
    {
        Ok(Word {
            class: token.class,
            text: Text::from_bytes(alloc, token.text)?,
            value: token.value,
            line: token.line,
            at: token.at,
        })
    }
}
