//! The tokens of a text, one at a time.

ghost use Rattle.std.specs.Prelude.{◌≡◌, ◌+◌, ◌<◌, ◌^◌, length, Ok, MatchOption, List};
ghost use Rattle.asm_lang_tokens.specs.Text.{PlacedToken};
ghost use Rattle.js_tokens.specs.Scan.{IsFlaw};

use crate::comments::has_line_end;
use crate::fault::TokenFault;
use crate::front::{Flaw, Front, front_of};
use crate::token::Token;

/// A text whose tokens are cut off one by one, from its front.
#[derive(Clone, Copy, Debug)]
pub struct Scanner<'a> {
    /// What is left of the text.
    pub rest: &'a [u8],
    /// The offset of its first byte.
    pub at: u64,
    ghost fits: { at + length rest.now < 2 ^ 64 },
}

/// What stands next in a text.
#[derive(Clone, Copy, Debug)]
pub enum Next<'a> {
    Token(Token<'a>),
    /// No token is left.
    End,
    /// The text has this fault before its next token.
    Fault(TokenFault),
}

fn fault_at(flaw: Flaw, at: u64) -> TokenFault
    ensures { IsFlaw result flaw at }
{
    match flaw {
        Flaw::NonAscii => TokenFault::NonAscii { at },
        Flaw::BadToken => TokenFault::BadToken { at },
        Flaw::OpenComment => TokenFault::OpenComment { at },
        Flaw::LiteralForm => TokenFault::LiteralForm { at },
    }
}

impl<'a> Scanner<'a> {
    ghost use Rattle.js_tokens.specs.Left.{IsLeft, IsNext, IsFirstFault};

    /// The whole text.
    pub fn new(source: &'a [u8]) -> Scanner<'a>
        ensures at { result.at ≡ 0 }
        ensures rest { result.rest ≡ source.entry }
    {
        Scanner {
            rest: source,
            at: 0,
        }
    }

    /// Cuts the next token off, with the gaps before it.
    pub fn next(&mut self) -> Next<'a>
        ensures { IsNext result self.old self.new }
    {
        let mut rest = self.rest;
        let mut at = self.at;
        let mut line_before = false;
        while !rest.is_empty() {
            match front_of(rest) {
                Front::Gap(n) => {
                    let (gap, after) = rest.split_at(n);
                    line_before |= has_line_end(gap);
                    at += n as u64;
                    rest = after;
                }
                Front::Token(kind, n) => {
                    let (text, after) = rest.split_at(n);
                    *self = Scanner {
                        rest: after,
                        at: at + n as u64,
                    };
                    return Next::Token(Token {
                        kind,
                        text,
                        at,
                        line_before,
                    });
                }
                Front::Flaw(flaw, n) => return Next::Fault(fault_at(flaw, at + n as u64)),
            }
        }
        Next::End
    }

    /// The first fault of what is left. All of its tokens are passed over.
    pub fn fault(self) -> Option<TokenFault>
        ensures { MatchOption result ((ts : List PlacedToken) × IsLeft self.entry (Ok ts)) (λ e. IsFirstFault self.entry e) }
    {
        let mut scanner = self;
        loop {
            match scanner.next() {
                Next::Token(_) => {}
                Next::End => return None,
                Next::Fault(fault) => return Some(fault),
            }
        }
    }
}
