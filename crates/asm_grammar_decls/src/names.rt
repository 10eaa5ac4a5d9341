//! Names between commas, up to a closing sign.

ghost use Rattle.std.specs.Prelude.{◌≡◌, true, IfOk, List};
ghost use Rattle.asm_lang.specs.Lexemes.{Lexeme as PlainLexeme};
ghost use Rattle.asm_lang.specs.Machine.{advance, goes, in_names, is_quiet, Step};
ghost use Rattle.asm_grammar_nodes.specs.Views.{class_view, lexeme_view, lexemes_view};
ghost use Rattle.asm_grammar_decls.specs.Parts.{names_reading_view, names_step_view};

use crate::want::is;
use asm_grammar_nodes::{Class, Lexeme};
use std::alloc::AllocError;

/// The names so far, after a first one that is held elsewhere.
#[derive(Drop)]
pub enum NamesReading<'a> {
    /// A comma or the closing sign must come.
    After(Vec<Lexeme<'a>>),
    /// A name must come.
    Next(Vec<Lexeme<'a>>),
}

/// What one token does to names.
#[derive(Drop)]
pub enum NamesStep<'a> {
    On(NamesReading<'a>),
    /// The closing sign was taken.
    Done(Vec<Lexeme<'a>>),
    Stuck,
}

impl<'a> NamesReading<'a> {
    /// Reads one token. `close` is the closing sign.
    #[tactic(auto, using(crate::proofs::Pushes::pushes))]
    pub fn feed(self, token: &Lexeme<'a>, close: Class) -> Result<NamesStep<'a>, AllocError>
        ensures { IfOk result (λ r. (q : is_quiet (class_view close) ≡ true) (k : List PlainLexeme → Step) → names_step_view r (class_view close) q k (lexeme_view token.now) ≡ advance (names_reading_view self.entry (class_view close) q k) (lexeme_view token.now)) }
    {
        match self {
            NamesReading::After(names) => Ok(after_name(names, token, close)),
            NamesReading::Next(names) => {
                if is(token, Class::Identifier) {
                    let mut names = names;
                    names.push(*token)?;
                    Ok(NamesStep::On(NamesReading::After(names)))
                } else {
                    Ok(NamesStep::Stuck)
                }
            }
        }
    }
}

fn after_name<'a>(names: Vec<Lexeme<'a>>, token: &Lexeme<'a>, close: Class) -> NamesStep<'a>
    ensures { (q : is_quiet (class_view close) ≡ true) (k : List PlainLexeme → Step) → names_step_view result (class_view close) q k (lexeme_view token.now) ≡ advance (goes (in_names (class_view close) q (lexemes_view names.entry.items) k)) (lexeme_view token.now) }
{
    match token.class {
        Class::Comma => NamesStep::On(NamesReading::Next(names)),
        _ => {
            if is(token, close) {
                NamesStep::Done(names)
            } else {
                NamesStep::Stuck
            }
        }
    }
}
