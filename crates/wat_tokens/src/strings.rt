//! Strings, which lend their bytes from the text.

ghost use Rattle.std.specs.Prelude.{◌≡◌, ◌+◌, ◌++◌, true, None, IfOk, MatchOption, OnOk, encode_utf8};
ghost use Rattle.wat_lang.specs.Tokens as spec;
ghost use Rattle.wat_tokens.specs.Closed.{EndsAt, IsClosed, IsClosedSomewhere, value_of};

use crate::bytes::is_plain;
use crate::pieces::{Piece, byte_escape, piece_of};
use crate::runs::plain_end;
use std::alloc::{AllocError, Global};

/// A string of a text. Where its closing quote stands is looked for again when that is asked, since most strings are short.
#[derive(Clone, Copy)]
pub struct StringText<'a> {
    /// What stands behind its opening quote, up to the end of the text.
    behind: &'a [u8],
    ghost closed: { IsClosedSomewhere behind.now },
}

impl<'a> StringText<'a> {
    ghost use Rattle.wat_tokens.specs.Views.{string_value, between_quotes};

    /// The string, from behind its opening quote on, and how many bytes stand before its closing one.
    pub(crate) fn new(behind: &'a [u8]) -> Option<(StringText<'a>, usize)>
        ensures { MatchOption result (spec.string_from 0 behind.now ≡ None) (λ x. (x.0.behind.now ≡ behind.now) × EndsAt behind.now x.1) }
    {
        let (len, _) = closing_quote(behind)?;
        Some((StringText { behind }, len))
    }

    /// What it stands for, where each byte between its quotes stands for itself.
    pub fn lent(self) -> Option<&'a [u8]>
        ensures { MatchOption result (string_value self.entry ≡ between_quotes self.entry → ⊥) (λ bytes. bytes.now ≡ string_value self.entry) }
    {
        let (len, plain) = closing_quote(self.behind)?;
        if plain {
            Some(&self.behind[..len])
        } else {
            None
        }
    }

    /// What it stands for.
    pub fn bytes(self, alloc: Global) -> Result<Vec<u8>, AllocError>
        ensures { IfOk result (λ bytes. bytes.items ≡ string_value self.entry) }
    {
        let mut bytes = Vec::new(alloc);
        self.push_to(&mut bytes)?;
        Ok(bytes)
    }

    /// Appends what it stands for.
    pub fn push_to(self, bytes: &mut Vec<u8>) -> Result<(), AllocError>
        ensures { OnOk result (bytes.new.items ≡ bytes.old.items ++ string_value self.entry) }
    {
        push_value(bytes, self.behind)
    }
}

/// How many bytes stand before the closing quote, and whether each stands for itself.
fn closing_quote(s: &[u8]) -> Option<(usize, bool)>
    ensures { MatchOption result (spec.string_from 0 s.now ≡ None) (λ x. IsClosed s.now x.0 x.1) }
{
    let mut n = 0;
    let mut plain = true;
    while n < s.len() {
        if let Some(_) = byte_escape(s, n) {
            plain = false;
            n += 3;
        } else if is_plain(s[n]) {
            n = plain_end(s, n + 1);
        } else {
            match piece_of(&s[n..]) {
                Piece::Quote => return Some((n, plain)),
                Piece::Byte(_) => n += 1,
                Piece::Escape(_, more) => {
                    plain = false;
                    n += more + 1;
                }
                Piece::Scalar(_, more) => {
                    plain = false;
                    n += more + 1;
                }
                Piece::Bad => return None,
            }
        }
    }
    None
}

/// Appends what a string stands for, from behind its opening quote on.
fn push_value(bytes: &mut Vec<u8>, s: &[u8]) -> Result<(), AllocError>
    requires { IsClosedSomewhere s.now }
    ensures { OnOk result (bytes.new.items ≡ bytes.old.items ++ value_of s.now) }
{
    let mut n = 0;
    while n < s.len() {
        if let Some(value) = byte_escape(s, n) {
            bytes.push(value)?;
            n += 3;
        } else if is_plain(s[n]) {
            let end = plain_end(s, n + 1);
            bytes.extend_from_slice(&s[n..end])?;
            n = end;
        } else {
            match piece_of(&s[n..]) {
                Piece::Byte(value) => {
                    bytes.push(value)?;
                    n += 1;
                }
                Piece::Escape(value, more) => {
                    bytes.push(value)?;
                    n += more + 1;
                }
                Piece::Scalar(c, more) => {
                    push_scalar(bytes, c)?;
                    n += more + 1;
                }
                Piece::Quote => return Ok(()),
                Piece::Bad => return Ok(()),
            }
        }
    }
    Ok(())
}

/// Appends the UTF-8 of a scalar value.
fn push_scalar(bytes: &mut Vec<u8>, c: u32) -> Result<(), AllocError>
    requires { spec.is_scalar c ≡ true }
    ensures { OnOk result (bytes.new.items ≡ bytes.old.items ++ encode_utf8 c) }
{
    let mut buffer = [0; 4];
    match char::from_u32(c) {
        Some(c) => bytes.extend_from_slice(c.encode_utf8(&mut buffer).as_bytes()),
        None => Ok(()),
    }
}
