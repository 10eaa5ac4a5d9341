//! Tokens as the grammar sees them, and the parts of its table.

ghost use Rattle.std.specs.Prelude.{◌≡◌, is_some};
ghost use Rattle.wat_lang.specs.Tokens.{atom};
ghost use Rattle.wat_lang.specs.Grammar.{meets, value_type_of};
ghost use Rattle.wat_grammar.specs.Views.{class_of, want_of};

use crate::atoms::{is_align, is_id, is_number, is_offset};
use crate::bytes::same_bytes;
use crate::form::Form;
use crate::keyword::Keyword;
use crate::sequences::Sequence;
use wat_lang::{FieldKind, Part, Rule, Space};

/// A token without its value: what a string stands for is nothing to the grammar.
#[derive(Clone, Copy)]
pub enum Lexeme<'a> {
    Open,
    Close,
    Text,
    Atom(&'a [u8]),
}

/// The tokens that may stand at a place.
#[derive(Clone, Copy)]
pub enum Want {
    Open,
    Close,
    Text,
    Number,
    Id,
    /// A number or an id.
    Index,
    ValueType,
    /// `offset=` and a number.
    Offset,
    /// `align=` and a number.
    Align,
    Word(Keyword),
}

/// What a token is in the module.
#[derive(Clone, Copy)]
pub enum Mark {
    /// It stands for the form alone.
    Nothing,
    Field(FieldKind),
    /// What is imported.
    Described(Space),
    Exported(Space),
    Binds(Space),
    Uses(Space),
    /// The type that a function has.
    TypeUse,
    /// The type of a parameter, a result or a local.
    Type(Part),
    BlockResult,
    GlobalType,
    Mutable,
    Minimum(Space),
    Maximum,
    ModuleName,
    FieldName,
    ExportName,
    Bytes,
    Word32,
    Word64,
    Offset,
    Alignment,
    Instruction(Form),
}

/// What may still come: a token, or what a rule stands for.
#[derive(Clone, Copy)]
pub enum Item {
    Token(Want, Mark),
    Rule(Rule),
}

/// A token that a rule may begin with, and what follows it.
#[derive(Clone, Copy)]
pub struct Row {
    pub want: Want,
    pub mark: Mark,
    pub next: Sequence,
}

/// A token's mark, and what comes behind it.
#[derive(Clone, Copy)]
pub struct Next {
    pub mark: Mark,
    pub items: Sequence,
}

fn is_value_type(bytes: &[u8]) -> bool
    ensures { result ≡ is_some (value_type_of bytes.now) }
{
    same_bytes(b"i32", bytes) || same_bytes(b"i64", bytes)
}

/// Whether the token may stand where this is wanted.
#[inline(always)]
pub fn meets(want: Want, lexeme: Lexeme<'_>) -> bool
    ensures { result ≡ meets (want_of want) (class_of lexeme.entry) }
{
    match (lexeme, want) {
        (Lexeme::Atom(bytes), Want::Word(word)) => same_bytes(word.text(), bytes),
        (Lexeme::Atom(bytes), _) => atom_meets(want, bytes),
        (Lexeme::Open, Want::Open) | (Lexeme::Close, Want::Close) | (Lexeme::Text, Want::Text) =>
            true,
        _ => false,
    }
}

fn atom_meets(want: Want, bytes: &[u8]) -> bool
    ensures { result ≡ meets (want_of want) (atom bytes.now) }
{
    match want {
        Want::Open | Want::Close | Want::Text => false,
        Want::Number => is_number(bytes),
        Want::Id => is_id(bytes),
        Want::Index => is_id(bytes) || is_number(bytes),
        Want::ValueType => is_value_type(bytes),
        Want::Offset => is_offset(bytes),
        Want::Align => is_align(bytes),
        Want::Word(word) => same_bytes(word.text(), bytes),
    }
}
