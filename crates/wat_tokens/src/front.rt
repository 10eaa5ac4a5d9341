//! What stands at the front of a text.

ghost use Rattle.std.specs.Prelude.{◌≡◌, ◌<◌, ◌≤◌, ◌+◌, ◌∷◌, false, IfSome, length, drop};
ghost use Rattle.std.specs.List.{prefix_len};
ghost use Rattle.wat_lang.specs.Tokens as spec;
ghost use Rattle.wat_tokens.specs.Views.{class_of, front_view, IsInside, IsTokenUpTo};

use crate::bytes::{begins_with, is_atom_byte, is_blank};
use crate::comments::{comment_len, line_len};
use crate::runs::atom_end;
use crate::strings::StringText;
use crate::token::Class;

/// What stands at the front of a text: a gap or a token of some bytes, or nothing that may stand there.
#[derive(Clone, Copy)]
pub enum Front<'a> {
    Gap(usize),
    Token(Class<'a>, usize),
    Nothing,
}

/// How many blanks stand at the front.
#[inline(always)]
pub fn blank_len(s: &[u8]) -> usize
    ensures value { result ≡ prefix_len spec.is_blank s.now }
    ensures within { result ≤ length s.now }
{
    let mut n = 0;
    while n < s.len() && is_blank(s[n]) {
        n += 1;
    }
    n
}

/// A parenthesis that begins no comment.
#[inline(always)]
fn parenthesis(s: &[u8], n: usize) -> Option<Class<'static>>
    requires { n < length s.now }
    ensures { IfSome result (λ class. spec.token (class_of class) 1 ≡ spec.front_of (drop n s.now)) }
{
    match s[n] {
        b'(' => {
            if begins_with(b';', &s[n + 1..]) {
                None
            } else {
                Some(Class::Opens)
            }
        }
        b')' => Some(Class::Closes),
        _ => None,
    }
}

/// The atom or parenthesis that stands at n, if one does, and where it ends. Most tokens are of these.
#[inline(always)]
pub fn short_token(s: &[u8], n: usize) -> Option<(Class<'_>, usize)>
    requires { n ≤ length s.now }
    ensures { IfSome result (λ x. IsTokenUpTo s.now n x) }
{
    if n == s.len() {
        return None;
    }
    if is_atom_byte(s[n]) {
        let end = atom_end(s, n + 1);
        return Some((Class::Atom(&s[n..end]), end));
    }
    let class = parenthesis(s, n)?;
    Some((class, n + 1))
}

fn atom_front(s: &[u8]) -> Front<'_>
    ensures { front_view result ≡ spec.atom_front (prefix_len spec.is_atom_byte s.now) s.now }
{
    let n = atom_end(s, 0);
    Front::Token(Class::Atom(&s[..n]), n)
}

/// Behind `(`.
fn open_front(rest: &[u8]) -> Front<'static>
    ensures { front_view result ≡ spec.open_front rest.now }
{
    match rest {
        [b';', inner @ ..] => match comment_len(inner) {
            Some(n) => Front::Gap(n + 2),
            None => Front::Nothing,
        },
        _ => Front::Token(Class::Opens, 1),
    }
}

/// Behind `"`.
fn string_front(rest: &[u8]) -> Front<'_>
    ensures { front_view result ≡ spec.string_front (1 + length rest.now) (spec.string_from 0 rest.now) }
{
    match StringText::new(rest) {
        Some((string, len)) => Front::Token(Class::String(string), len + 2),
        None => Front::Nothing,
    }
}

/// Behind `;`.
fn semicolon_front(rest: &[u8]) -> Front<'static>
    ensures { front_view result ≡ spec.semicolon_front rest.now }
{
    match rest {
        [b';', line @ ..] => Front::Gap(2 + line_len(line)),
        _ => Front::Nothing,
    }
}

/// What stands at the front of a text.
#[tactic(auto, using(crate::proofs::Fronts::view_inside))]
pub fn front_of(s: &[u8]) -> Front<'_>
    ensures front { front_view result ≡ spec.front_of s.now }
    ensures inside { IsInside result (length s.now) }
{
    any_front(s)
}

fn any_front(s: &[u8]) -> Front<'_>
    ensures { front_view result ≡ spec.front_of s.now }
{
    match s {
        [] => Front::Nothing,
        [first, rest @ ..] => {
            if is_blank(*first) {
                Front::Gap(1)
            } else if is_atom_byte(*first) {
                atom_front(s)
            } else {
                sign_front(*first, rest)
            }
        }
    }
}

/// What stands at the front of a text that begins with neither a blank nor an atom.
fn sign_front(first: u8, rest: &[u8]) -> Front<'_>
    requires blank { spec.is_blank first ≡ false }
    requires atom { spec.is_atom_byte first ≡ false }
    ensures { front_view result ≡ spec.front_of (first ∷ rest.now) }
{
    match first {
        b'(' => open_front(rest),
        b')' => Front::Token(Class::Closes, 1),
        b'"' => string_front(rest),
        b';' => semicolon_front(rest),
        _ => Front::Nothing,
    }
}
