//! The tokens of a text, one at a time.

ghost use Rattle.std.specs.Prelude.{◌≡◌, ◌+◌, ◌<◌, ◌≤◌, ◌^◌, length, drop, Ok, MatchOption, List};
ghost use Rattle.std.specs.List.{prefix_len};
ghost use Rattle.wat_lang.specs.Tokens as spec;

use crate::front::{Front, blank_len, front_of, short_token};
use crate::token::{Class, Token};

/// A text whose tokens are cut off one by one, from its front.
#[derive(Clone, Copy)]
pub struct Scanner<'a> {
    /// What is left of the text.
    pub rest: &'a [u8],
    /// The offset of its first byte.
    pub at: u64,
    ghost fits: { at + length rest.now < 2 ^ 64 },
}

/// What stands next in a text.
#[derive(Clone, Copy)]
pub enum Next<'a> {
    Token(Token<'a>),
    /// No token is left.
    End,
    /// No gap and no token begins at this offset.
    Fault(u64),
}

impl<'a> Scanner<'a> {
    ghost use Rattle.wat_tokens.specs.declared.scanner.Next.TheVariants as nexts;
    ghost use Rattle.wat_tokens.specs.Left.{IsLeft, IsNext, IsFirstFault};

    /// The whole text.
    pub fn new(source: &'a [u8]) -> Scanner<'a>
        ensures at { result.at ≡ 0 }
        ensures rest { result.rest ≡ source.entry }
    {
        Scanner {
            rest: source,
            at: 0,
        }
    }

    /// Cuts the next token off, with the gaps before it.
    pub fn next(&mut self) -> Next<'a>
        ensures { IsNext result self.old self.new }
    {
        let n = blank_len(self.rest);
        let Some((class, end)) = short_token(self.rest, n) else {
            return self.next_behind(n);
        };
        self.cut(class, n, end)
    }

    /// Cuts the next token off, behind so many blanks. It stands apart, since `next` needs few registers where it calls nothing.
    #[inline(never)]
    fn next_behind(&mut self, blanks: usize) -> Next<'a>
        requires { blanks ≤ prefix_len spec.is_blank self.now.rest.now }
        ensures { IsNext result self.old self.new }
    {
        let mut n = blanks;
        while n < self.rest.len() {
            match front_of(&self.rest[n..]) {
                Front::Gap(len) => n += len,
                Front::Token(class, len) => return self.cut(class, n, n + len),
                Front::Nothing => return Next::Fault(self.at + n as u64),
            }
        }
        Next::End
    }

    /// Cuts a token off that stands behind n bytes of gaps and ends there.
    #[inline(always)]
    fn cut(&mut self, class: Class<'a>, n: usize, end: usize) -> Next<'a>
        requires { (n ≤ end) × (end ≤ length self.now.rest.now) }
        ensures token { result ≡ nexts.Token (record { class = class.entry; at = self.old.at + n }) }
        ensures at { self.new.at ≡ self.old.at + end }
        ensures rest { self.new.rest.now ≡ drop end self.old.rest.now }
    {
        let at = self.at + n as u64;
        *self = Scanner {
            rest: &self.rest[end..],
            at: self.at + end as u64,
        };
        Next::Token(Token { class, at })
    }

    /// The first fault of what is left. All of its tokens are passed over.
    pub fn fault(self) -> Option<u64>
        ensures { MatchOption result ((ts : List spec.Token) × IsLeft self.entry (Ok ts)) (λ at. IsFirstFault self.entry at) }
    {
        let mut scanner = self;
        loop {
            match scanner.next() {
                Next::Token(_) => {}
                Next::End => return None,
                Next::Fault(at) => return Some(at),
            }
        }
    }
}
