//! Reading a module token by token, within the limit on the height.

ghost use Rattle.std.specs.Prelude.{◌≡◌, ◌∷◌, List as Items, IfOk};
ghost use Rattle.asm_laws_height.specs.Peaks.{run_low};
ghost use Rattle.asm_lang.specs.Lexemes.{lexeme_of, Lexeme as PlainLexeme};
ghost use Rattle.asm_lang.specs.Machine.{advance, Step};
ghost use Rattle.asm_lang.specs.Heights.{height_limit};
ghost use Rattle.js_tokens.specs.Views.{placed_token};
ghost use Rattle.asm_grammar.specs.Gives.{IsRefusal, fed_view, is_negative_zero};
ghost use Rattle.asm_grammar_modules.specs.Readings.{reading_view};

use crate::fault::ParseFault;
use asm_grammar_decls::{HeadingReading, is, is_zero, lexeme_of};
use asm_grammar_erase::erased;
use asm_grammar_modules::{ModuleFed, Reading};
use asm_grammar_nodes::Class;
use asm_tree::Parsed;
use js_tokens::Token;
use sem_words::JsOp;
use std::alloc::{AllocError, Global};

/// Whether a number of value 0 stands after a `-`.
fn is_negative_zero(minus: &Token<'_>, zero: &Token<'_>) -> bool
    ensures { result ≡ is_negative_zero (lexeme_of (placed_token minus.now)) (lexeme_of (placed_token zero.now)) }
{
    let minus = lexeme_of(minus);
    let zero = lexeme_of(zero);
    is(&minus, Class::Operator(JsOp::Sub)) && is_zero(&zero)
}

/// The fault where the grammar refuses a token: a `-` directly before a number of value 0 has the fault.
fn refusal(last: Option<Token<'_>>, token: &Token<'_>) -> ParseFault
    ensures { IsRefusal last.entry token.now result }
{
    match last {
        Some(minus) if is_negative_zero(&minus, token) => ParseFault::LiteralForm { at: minus.at },
        _ => ParseFault::Grammar { at: token.at },
    }
}

/// What one token did to a module that is read in place, within the limit on the height.
#[derive(Clone, Copy)]
pub enum Fed {
    On,
    Stuck,
    NoUseAsm,
    /// A node above the limit ends at the token.
    High,
}

/// Whether reading goes on, after a token.
fn within_limit(next: &Reading<'_>) -> Fed
    ensures { (s : Step) (t : PlainLexeme) (ts : Items PlainLexeme) → reading_view next.now ≡ advance s t → fed_view result (reading_view next.now) t ts ≡ run_low height_limit s (t ∷ ts) }
{
    if next.peak().is_over() {
        Fed::High
    } else {
        Fed::On
    }
}

fn feed<'a>(alloc: Global, reading: &mut Reading<'a>, token: &Token<'a>) -> Result<Fed, AllocError>
    ensures { IfOk result (λ r. (ts : Items PlainLexeme) → fed_view r (reading_view reading.new) (lexeme_of (placed_token token.now)) ts ≡ run_low height_limit (reading_view reading.old) (lexeme_of (placed_token token.now) ∷ ts)) }
{
    match reading.feed(alloc, &lexeme_of(token))? {
        ModuleFed::On => Ok(within_limit(reading)),
        ModuleFed::Stuck => Ok(Fed::Stuck),
        ModuleFed::NoUseAsm => Ok(Fed::NoUseAsm),
    }
}

/// A module whose tokens are read one by one.
#[derive(Drop)]
pub struct Parser<'a> {
    reading: Reading<'a>,
    last: Option<Token<'a>>,
}

impl<'a> Parser<'a> {
    ghost use Rattle.std.specs.Prelude.{[], ◌∷◌, ◌++◌, ℕ, List, Err, OnOk, IfErr};
    ghost use Rattle.asm_lang_tokens.specs.Text.{PlacedToken};
    ghost use Rattle.js_tokens.specs.Views.{placed_token};
    ghost use Rattle.asm_grammar.specs.Parsed.{HasRead, IsVerdict};

    /// Before the first token.
    pub fn new() -> Parser<'a>
        ensures { HasRead result [] }
    {
        Parser {
            reading: Reading::Heading(HeadingReading::Start),
            last: None,
        }
    }

    /// Reads one token. A fault is that of the tokens up to this one, whichever come after it. Of a fault of the grammar and one
    /// of the height the earlier one counts.
    pub fn feed(&mut self, alloc: Global, token: &Token<'a>) -> Result<(), ParseFault>
        ensures on { OnOk result ((ts : List PlacedToken) → HasRead self.old ts → HasRead self.new (ts ++ placed_token token.now ∷ [])) }
        ensures fault { IfErr result (λ e. (ts us : List PlacedToken) (end : ℕ) → HasRead self.old ts → IsVerdict end (ts ++ placed_token token.now ∷ us) (Err e)) }
    {
        match feed(alloc, &mut self.reading, token)? {
            Fed::On => {
                self.last = Some(*token);
                Ok(())
            }
            Fed::Stuck => Err(refusal(self.last, token)),
            Fed::NoUseAsm => Err(ParseFault::NoUseAsm { at: token.at }),
            Fed::High => Err(ParseFault::Height { at: token.at }),
        }
    }

    /// The module that the tokens spell, all of the tokens, and the places of its nodes: a whole before its parts, in text order.
    /// The text ends at the offset.
    pub fn finish(self, alloc: Global, end: u64) -> Result<Parsed, ParseFault>
        ensures { (ts : List PlacedToken) → HasRead self.entry ts → IsVerdict end ts result }
    {
        let Parser { reading, last: _ } = self;
        match reading.finished() {
            Some(whole) => match erased(alloc, whole.into_tree()) {
                Ok(parsed) => Ok(parsed),
                Err(_) => Err(ParseFault::Memory),
            },
            None => Err(ParseFault::Grammar { at: end }),
        }
    }
}
