//! The end of a module, after its exports.

ghost use Rattle.std.specs.Prelude.{◌≡◌};
ghost use Rattle.asm_lang.specs.Machine.{advance, stops};
ghost use Rattle.asm_lang.specs.Trees.{ModuleTree as PlainModule};
ghost use Rattle.asm_laws_height.specs.Peaks.{step_peak};
ghost use Rattle.asm_grammar_nodes.specs.Heights.{counted};
ghost use Rattle.asm_grammar_nodes.specs.Views.{lexeme_view, module_view};
ghost use Rattle.asm_grammar_modules.specs.Ends.{finished_view};
ghost use Rattle.asm_grammar_modules.specs.Readings.{close_brace_step, end_step_view, end_view, in_end_view};

use crate::tall::TallModule;
use asm_grammar_decls::{Ending, end_before, is};
use asm_grammar_nodes::{Class, Height, Lexeme};

/// What must come or may come next after the exports.
#[derive(Clone, Copy)]
pub enum EndPlace {
    /// The `;` of the `return`, which may be missing.
    Ends,
    CloseBrace,
    /// A `;` may come yet.
    Last,
    Over,
}

/// What one token does to the end of a module.
#[derive(Clone, Copy)]
pub enum EndStep {
    On(EndPlace),
    Stuck,
}

/// What one token did to the end of a module that is read in place.
#[derive(Clone, Copy)]
pub enum InEnd {
    On,
    Stuck,
}

impl EndPlace {
    /// Reads one token, in place.
    pub fn feed(&mut self, token: &Lexeme<'_>) -> InEnd
        ensures { (m : PlainModule) → in_end_view result self.new m (lexeme_view token.now) ≡ advance (end_view self.old m) (lexeme_view token.now) }
    {
        match self.step(token) {
            EndStep::On(next) => {
                *self = next;
                InEnd::On
            }
            EndStep::Stuck => InEnd::Stuck,
        }
    }

    /// What one token makes of it.
    fn step(self, token: &Lexeme<'_>) -> EndStep
        ensures { (m : PlainModule) → end_step_view result m (lexeme_view token.now) ≡ advance (end_view self m) (lexeme_view token.now) }
    {
        match self {
            EndPlace::Ends => match end_before(token) {
                Ending::Written => EndStep::On(EndPlace::CloseBrace),
                Ending::Missing => close_brace(token),
                Ending::Wrong => EndStep::Stuck,
            },
            EndPlace::CloseBrace => close_brace(token),
            EndPlace::Last => match token.class {
                Class::Semicolon => EndStep::On(EndPlace::Over),
                _ => EndStep::Stuck,
            },
            EndPlace::Over => EndStep::Stuck,
        }
    }

    /// The height of the module, where it may have ended at the last token.
    pub fn peak(self, whole: &TallModule) -> Height
        ensures { result.count ≡ counted (step_peak (end_view self (module_view whole.now.tree))) }
    {
        match self {
            EndPlace::Ends | EndPlace::CloseBrace => Height::none(),
            EndPlace::Last | EndPlace::Over => whole.height,
        }
    }

    /// The module, where it may end here.
    pub fn finished(self, whole: TallModule) -> Option<TallModule>
        ensures { finished_view result ≡ stops (end_view self (module_view whole.tree)) }
    {
        match self {
            EndPlace::Ends | EndPlace::CloseBrace => None,
            EndPlace::Last | EndPlace::Over => Some(whole),
        }
    }
}

fn close_brace(token: &Lexeme<'_>) -> EndStep
    ensures { (m : PlainModule) → end_step_view result m (lexeme_view token.now) ≡ advance (close_brace_step m) (lexeme_view token.now) }
{
    if is(token, Class::CloseBrace) {
        EndStep::On(EndPlace::Last)
    } else {
        EndStep::Stuck
    }
}
