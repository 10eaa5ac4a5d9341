//! The marks of the tokens of a text, one by one.

ghost use Rattle.std.specs.Prelude.{◌≡◌, ℕ, true, [], Err, IfOk, List, None, Some};
ghost use Rattle.wat_lang.specs.Grammar.{Item, Marked};
ghost use Rattle.wat_laws_kept.specs.Kept.{says_something};
ghost use Rattle.wat_laws_grammar.specs.Machine.{feed, may_stop};
ghost use Rattle.wat_grammar.specs.Views as grammar;
ghost use Rattle.wat_grammar.specs.Views.{mark_of};
ghost use Rattle.wat_tokens.specs.Views.{class_of};
ghost use Rattle.wat_marks.specs.declared.fault.WatFault.TheVariants.{Refused};
ghost use Rattle.wat_marks.specs.Strings.{stack_fits};
ghost use Rattle.wat_marks.specs.Views.{IsWordOrToken, LooksBehind};

use crate::fault::WatFault;
use crate::marked::MarkedToken;
use crate::outside::{outside_behind, stands_outside};
use std::alloc::{AllocError, Global};
use wat_grammar::{Lexeme, Mark, Stack};
use wat_lang::Row;
use wat_laws_grammar::{derivations_are_runs, first_faults};
use wat_laws_kept::kept_marks;
use wat_tokens::{Class, Next, Scanner};

fn lexeme_of<'a>(class: Class<'a>) -> Lexeme<'a>
    ensures { (is : List Item) → feed is (grammar.class_of result) ≡ feed is (class_of class.entry) }
{
    derivations_are_runs();
    match class {
        Class::Opens => Lexeme::Open,
        Class::Closes => Lexeme::Close,
        Class::String(_) => Lexeme::Text,
        Class::Atom(bytes) => Lexeme::Atom(bytes),
    }
}

/// Why a text is refused whose grammar breaks at a place that `scanner` stands behind: tokens count first, then words outside the integers.
fn cause(scanner: Scanner<'_>, at: u64) -> WatFault
    ensures { LooksBehind scanner.entry result at }
{
    match outside_behind(scanner) {
        Err(fault) => WatFault::Refused {
            row: Row::Token,
            at: fault,
        },
        Ok(Some(word)) => WatFault::Refused {
            row: Row::OutsideInteger,
            at: word,
        },
        Ok(None) => WatFault::Refused {
            row: Row::Grammar,
            at,
        },
    }
}

/// Why a text is refused that has a word outside the integers at a place that `scanner` stands behind: tokens count first.
fn outside_cause(scanner: Scanner<'_>, at: u64) -> WatFault
    ensures { IsWordOrToken scanner.entry result at }
{
    match scanner.fault() {
        Some(fault) => WatFault::Refused {
            row: Row::Token,
            at: fault,
        },
        None => WatFault::Refused {
            row: Row::OutsideInteger,
            at,
        },
    }
}

fn says_something(mark: Mark) -> bool
    ensures { result ≡ says_something (mark_of mark) }
{
    !matches!(mark, Mark::Nothing)
}

fn refused(row: Row, at: u64) -> WatFault
    ensures { result ≡ Refused row at }
{
    WatFault::Refused { row, at }
}

/// A refusal, behind which nothing is read.
fn refuse<'a>(
    stack: &mut Option<Stack>,
    fault: WatFault,
) -> Result<Option<MarkedToken<'a>>, WatFault>
    ensures fault { result ≡ Err fault }
    ensures closed { stack.new ≡ None }
{
    *stack = None;
    Err(fault)
}

/// A text whose tokens are marked one by one, from its front. Tokens that stand for the form alone are passed over.
#[derive(Drop)]
pub struct MarkReader<'a> {
    source: &'a [u8],
    scanner: Scanner<'a>,
    /// What may still come: None behind the end of the text, and behind a refusal.
    stack: Option<Stack>,
    ghost fits: { stack_fits stack ≡ true },
}

impl<'a> MarkReader<'a> {
    ghost use Rattle.std.specs.Prelude.{◌<◌, IfSome};
    ghost use Rattle.wat_marks.specs.Readings.{HasRead, IsNextMark, left_of};

    /// The whole text.
    pub fn new(alloc: Global, source: &'a [u8]) -> Result<MarkReader<'a>, AllocError>
        ensures { IfOk result (λ r. HasRead source.now r []) }
    {
        Ok(MarkReader {
            source,
            scanner: Scanner::new(source),
            stack: Some(Stack::new(alloc)?),
        })
    }

    /// Reads on to the next token that says something. None at the end of a text of the grammar, and when it is called again behind that
    /// or behind a refusal.
    ///
    /// The refusal is the row that counts first, of those for tokens, for words outside the integers and for the grammar.
    pub fn next(&mut self) -> Result<Option<MarkedToken<'a>>, WatFault>
        ensures marks { (source : List ℕ) (ks : List Marked) → HasRead source self.old ks → IsNextMark source ks self.new result }
        ensures shorter { IfOk result (λ o. IfSome o (λ _. left_of self.new < left_of self.old)) }
    {
        derivations_are_runs();
        first_faults();
        kept_marks();
        loop {
            let Some(stack) = &mut self.stack else {
                return Ok(None);
            };
            match self.scanner.next() {
                Next::Token(token) => {
                    if stands_outside(token.class) {
                        return refuse(&mut self.stack, outside_cause(self.scanner, token.at));
                    }
                    match stack.feed(lexeme_of(token.class)) {
                        Ok(Some(mark)) => {
                            if says_something(mark) {
                                return Ok(Some(MarkedToken { mark, token }));
                            }
                        }
                        Ok(None) => return refuse(&mut self.stack, cause(self.scanner, token.at)),
                        Err(error) => return refuse(&mut self.stack, error.into()),
                    }
                }
                Next::End => {
                    if self.may_stop() {
                        return Ok(None);
                    }
                    let at = self.source.len() as u64;
                    return refuse(&mut self.stack, refused(Row::Grammar, at));
                }
                Next::Fault(at) => return refuse(&mut self.stack, refused(Row::Token, at)),
            }
        }
    }

    /// Whether the text may end here. Nothing is read behind that.
    fn may_stop(&mut self) -> bool
        ensures may { (is : List Item) → self.old.stack ≡ Some is → result ≡ may_stop is }
        ensures source { self.new.source ≡ self.old.source }
    {
        match self.stack.take() {
            Some(stack) => stack.may_stop(),
            None => true,
        }
    }
}
