//! What stands at the front of a text.

ghost use Rattle.std.specs.Prelude.{◌≡◌, ◌<◌, ◌&&◌, MatchOption, true, ◌∷◌, length};
ghost use Rattle.std.specs.List.{prefix_len};
ghost use Rattle.asm_lang_tokens.specs.Bytes.{is_name_byte};
ghost use Rattle.asm_lang_tokens.specs.Forms.{begins_separator};
ghost use Rattle.asm_lang_tokens.specs.Text.{token_len, first_place, front_of, token_at, gap_without, is_numeric, runs_on};
ghost use Rattle.js_tokens.specs.Scan.{IsToken, begins_sign, front_view, IsInside};
ghost use Rattle.js_tokens.specs.Views.{kind_view};

use crate::bytes::{
    begins_name, begins_with, is_ascii, is_digit, is_gap_byte, is_name_byte, is_quote,
};
use crate::comments::{close_at, line_len, separator_at};
use crate::numbers::{digits_len, numeral_at};
use crate::punctuators::punct_len;
use crate::quoted::quoted_len;
use crate::token::TokenKind;

/// What is wrong with a text.
#[derive(Clone, Copy, Debug, PartialEq, Eq)]
pub enum Flaw {
    NonAscii,
    BadToken,
    OpenComment,
    LiteralForm,
}

/// What stands at the front of a text: a gap or a token of some bytes, or a flaw some bytes on.
#[derive(Clone, Copy, Debug)]
pub enum Front {
    Gap(usize),
    Token(TokenKind, usize),
    Flaw(Flaw, usize),
}

/// How many name bytes stand at the front.
fn name_len(s: &[u8]) -> usize
    ensures { result ≡ prefix_len is_name_byte s.now }
{
    let mut n = 0;
    while n < s.len() && is_name_byte(s[n]) {
        n += 1;
    }
    n
}

/// The longest token at the front, if one begins there.
fn longest_token(s: &[u8]) -> Option<(TokenKind, usize)>
    ensures { MatchOption result (token_len s.now ≡ 0) (λ t. IsToken s.now t.0 t.1) }
{
    let (first, rest) = s.split_first()?;
    if begins_name(*first) {
        Some((TokenKind::Name, name_len(s)))
    } else if is_digit(*first) {
        Some(numeral_at(*first, rest, s))
    } else if is_quote(*first) {
        match quoted_len(*first, rest) {
            0 => None,
            n => Some((TokenKind::Quoted, n + 1)),
        }
    } else if *first == b'.' {
        Some(dot_at(rest))
    } else {
        punct_at(s)
    }
}

/// The longest token at the front of a dot and what follows it.
fn dot_at(rest: &[u8]) -> (TokenKind, usize)
    ensures { IsToken (46 ∷ rest.now) result.0 result.1 }
{
    match digits_len(rest) {
        0 => (TokenKind::Punct, 1),
        n => (TokenKind::Decimal, n + 1),
    }
}

/// The longest punctuator at the front of a text that begins with neither a dot nor a token of another kind.
fn punct_at(s: &[u8]) -> Option<(TokenKind, usize)>
    requires { begins_sign s.now ≡ true }
    ensures { MatchOption result (token_len s.now ≡ 0) (λ t. IsToken s.now t.0 t.1) }
{
    match punct_len(s) {
        0 => None,
        n => Some((TokenKind::Punct, n)),
    }
}

/// Whether it is a number or a decimal that is followed at once by a name byte or a dot.
fn runs_on(kind: TokenKind, after: &[u8]) -> bool
    ensures { result ≡ (is_numeric (kind_view kind) && runs_on after.now) }
{
    is_numeric(kind) && begins_run_on(after)
}

fn is_numeric(kind: TokenKind) -> bool
    ensures { result ≡ is_numeric (kind_view kind) }
{
    match kind {
        TokenKind::Number(_) | TokenKind::Decimal => true,
        TokenKind::Name | TokenKind::Quoted | TokenKind::Punct => false,
    }
}

fn begins_run_on(s: &[u8]) -> bool
    ensures { result ≡ runs_on s.now }
{
    match s {
        [] => false,
        [b, ..] => is_name_byte(*b) || *b == b'.',
    }
}

/// How many bytes the longest token at the front takes, or 0 if none begins there.
pub fn token_len(bytes: &[u8]) -> usize
    ensures { result ≡ token_len bytes.now }
{
    match longest_token(bytes) {
        None => 0,
        Some((_, n)) => n,
    }
}

/// The token at the front, or its flaw.
#[tactic(auto, using(crate::proofs::Fronts::tokens))]
fn token_front(s: &[u8]) -> Front
    ensures front { front_view result ≡ token_at (token_len s.now) s.now }
    ensures inside { IsInside result (length s.now) }
{
    match longest_token(s) {
        None => Front::Flaw(Flaw::BadToken, 0),
        Some((kind, n)) => {
            let (_, after) = s.split_at(n);
            if runs_on(kind, after) {
                Front::Flaw(Flaw::LiteralForm, 0)
            } else {
                Front::Token(kind, n)
            }
        }
    }
}

/// A comment is a gap, but for a line separator in it.
fn comment_front(comment: &[u8]) -> Front
    requires { 0 < length comment.now }
    ensures front { front_view result
        ≡ gap_without (length comment.now) (first_place begins_separator comment.now) }
    ensures inside { IsInside result (length comment.now) }
{
    match separator_at(comment) {
        None => Front::Gap(comment.len()),
        Some(n) => Front::Flaw(Flaw::NonAscii, n),
    }
}

/// What stands at the front of a text that begins with a slash.
fn slash_front(rest: &[u8], s: &[u8]) -> Front
    requires { s.now ≡ 47 ∷ rest.now }
    ensures front { front_view result ≡ front_of s.now }
    ensures inside { IsInside result (length s.now) }
{
    if begins_with(b'/', rest) {
        let (comment, _) = s.split_at(1 + line_len(rest));
        comment_front(comment)
    } else if begins_with(b'*', rest) {
        let (_, inner) = rest.split_at(1);
        match close_at(inner) {
            None => Front::Flaw(Flaw::OpenComment, 0),
            Some(n) => {
                let (comment, _) = s.split_at(n + 4);
                comment_front(comment)
            }
        }
    } else {
        token_front(s)
    }
}

/// What stands at the front of a text.
pub fn front_of(s: &[u8]) -> Front
    ensures front { front_view result ≡ front_of s.now }
    ensures inside { IsInside result (length s.now) }
{
    match s.split_first() {
        None => Front::Flaw(Flaw::BadToken, 0),
        Some((first, rest)) => {
            if is_gap_byte(*first) {
                Front::Gap(1)
            } else if *first == b'/' {
                slash_front(rest, s)
            } else if is_ascii(*first) {
                token_front(s)
            } else {
                Front::Flaw(Flaw::NonAscii, 0)
            }
        }
    }
}
