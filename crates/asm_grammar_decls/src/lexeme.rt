//! Tokens as the grammar sees them.

ghost use Rattle.std.specs.Prelude.{[], ◌∷◌, ◌≡◌};
ghost use Rattle.asm_lang.specs.Lexemes.{class_in, class_of, identifier, lexeme_of, other, reserved_words, signs};
ghost use Rattle.asm_lang_tokens.specs.Forms.{quoted};
ghost use Rattle.asm_grammar_nodes.specs.Views.{class_view, lexeme_view};
ghost use Rattle.asm_grammar_decls.specs.Tables.{beginning_with, entries};
ghost use Rattle.js_tokens.specs.Views.{placed_token};

use asm_grammar_nodes::{Class, Lexeme};
use js_tokens::{Token, TokenKind};
use sem_words::JsOp;

/// How a word or a sign is spelled, and its class.
type Entry = (&'static [u8], Class);

// The reserved words, a table for each first letter, so that a name is compared with five at most.

static B_WORDS: [Entry; 1] = [(b"break", Class::Break)];

static C_WORDS: [Entry; 5] = [
    (b"case", Class::Case),
    (b"catch", Class::Reserved),
    (b"class", Class::Reserved),
    (b"const", Class::Reserved),
    (b"continue", Class::Continue),
];

static D_WORDS: [Entry; 4] = [
    (b"debugger", Class::Reserved),
    (b"default", Class::Default),
    (b"delete", Class::Reserved),
    (b"do", Class::Do),
];

static E_WORDS: [Entry; 4] = [
    (b"else", Class::Else),
    (b"enum", Class::Reserved),
    (b"export", Class::Reserved),
    (b"extends", Class::Reserved),
];

static F_WORDS: [Entry; 4] = [
    (b"false", Class::Reserved),
    (b"finally", Class::Reserved),
    (b"for", Class::For),
    (b"function", Class::Function),
];

static I_WORDS: [Entry; 4] = [
    (b"if", Class::If),
    (b"import", Class::Reserved),
    (b"in", Class::In),
    (b"instanceof", Class::In),
];

static L_WORDS: [Entry; 1] = [(b"let", Class::Reserved)];

static N_WORDS: [Entry; 2] = [(b"new", Class::New), (b"null", Class::Reserved)];

static R_WORDS: [Entry; 1] = [(b"return", Class::Return)];

static S_WORDS: [Entry; 2] = [(b"super", Class::Reserved), (b"switch", Class::Switch)];

static T_WORDS: [Entry; 5] = [
    (b"this", Class::Reserved),
    (b"throw", Class::Reserved),
    (b"true", Class::Reserved),
    (b"try", Class::Reserved),
    (b"typeof", Class::Reserved),
];

static V_WORDS: [Entry; 2] = [(b"var", Class::Var), (b"void", Class::Reserved)];

static W_WORDS: [Entry; 2] = [(b"while", Class::While), (b"with", Class::Reserved)];

static Y_WORDS: [Entry; 1] = [(b"yield", Class::Reserved)];

/// The signs of more than one byte.
static LONG_SIGNS: [Entry; 7] = [
    (b"<<", Class::Operator(JsOp::Shl)),
    (b">>", Class::Operator(JsOp::Sar)),
    (b">>>", Class::Operator(JsOp::Shr)),
    (b"<=", Class::Operator(JsOp::Le)),
    (b">=", Class::Operator(JsOp::Ge)),
    (b"==", Class::Operator(JsOp::Eq)),
    (b"!=", Class::Operator(JsOp::Ne)),
];

/// The class of what is spelled so in the table, or `last`.
fn class_in(table: &[Entry], text: &[u8], last: Class) -> Class
    ensures { class_view result ≡ class_in (entries table.now) text.now (class_view last) }
{
    for (spelling, class) in table {
        if *spelling == text {
            return *class;
        }
    }
    last
}

/// The reserved words that begin with the byte.
fn words_from(first: u8) -> &'static [Entry]
    ensures { entries result.now ≡ beginning_with first reserved_words }
{
    match first {
        b'b' => &B_WORDS,
        b'c' => &C_WORDS,
        b'd' => &D_WORDS,
        b'e' => &E_WORDS,
        b'f' => &F_WORDS,
        b'i' => &I_WORDS,
        b'l' => &L_WORDS,
        b'n' => &N_WORDS,
        b'r' => &R_WORDS,
        b's' => &S_WORDS,
        b't' => &T_WORDS,
        b'v' => &V_WORDS,
        b'w' => &W_WORDS,
        b'y' => &Y_WORDS,
        _ => &[],
    }
}

fn word_class(text: &[u8]) -> Class
    ensures { class_view result ≡ class_in reserved_words text.now identifier }
{
    match text {
        [first, ..] => class_in(words_from(*first), text, Class::Identifier),
        [] => Class::Identifier,
    }
}

/// The class of a sign of one byte.
fn short_sign_class(byte: u8) -> Class
    ensures { class_view result ≡ class_in signs (byte ∷ []) other }
{
    match byte {
        b'{' => Class::OpenBrace,
        b'}' => Class::CloseBrace,
        b'(' => Class::OpenParen,
        b')' => Class::CloseParen,
        b'[' => Class::OpenBracket,
        b']' => Class::CloseBracket,
        b'.' => Class::Dot,
        b';' => Class::Semicolon,
        b',' => Class::Comma,
        b'?' => Class::Question,
        b':' => Class::Colon,
        b'=' => Class::Equals,
        b'+' => Class::Operator(JsOp::Add),
        b'-' => Class::Operator(JsOp::Sub),
        b'*' => Class::Operator(JsOp::Mul),
        b'/' => Class::Operator(JsOp::Div),
        b'%' => Class::Operator(JsOp::Rem),
        b'|' => Class::Operator(JsOp::Or),
        b'&' => Class::Operator(JsOp::And),
        b'^' => Class::Operator(JsOp::Xor),
        b'<' => Class::Operator(JsOp::Lt),
        b'>' => Class::Operator(JsOp::Gt),
        b'~' => Class::Tilde,
        b'!' => Class::Bang,
        _ => Class::Other,
    }
}

fn sign_class(text: &[u8]) -> Class
    ensures { class_view result ≡ class_in signs text.now other }
{
    match text {
        [] => Class::Other,
        [byte] => short_sign_class(*byte),
        [_, _, ..] => class_in(&LONG_SIGNS, text, Class::Other),
    }
}

fn quoted_class(text: &[u8]) -> Class
    ensures { class_view result ≡ class_of quoted text.now }
{
    if text == b"\"use asm\"".as_slice() || text == b"'use asm'".as_slice() {
        Class::Directive
    } else {
        Class::Other
    }
}

/// The token with its class.
pub fn lexeme_of<'a>(token: &Token<'a>) -> Lexeme<'a>
    ensures { lexeme_view result ≡ lexeme_of (placed_token token.now) }
{
    let (class, value) = match token.kind {
        TokenKind::Name => (word_class(token.text), 0),
        TokenKind::Number(value) => (Class::Number, value),
        TokenKind::Decimal => (Class::Decimal, 0),
        TokenKind::Quoted => (quoted_class(token.text), 0),
        TokenKind::Punct => (sign_class(token.text), 0),
    };
    Lexeme {
        class,
        text: token.text,
        value,
        line: token.line_before,
        at: token.at,
    }
}
