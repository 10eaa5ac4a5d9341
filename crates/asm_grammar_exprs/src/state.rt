//! What is read of an expression so far, and what one token does to it.

ghost use Rattle.std.specs.Prelude.{◌≡◌, IfOk};
ghost use Rattle.asm_lang.specs.Trees.{ExprTree};
ghost use Rattle.asm_lang.specs.Lexemes.{Lexeme as Token};
ghost use Rattle.asm_lang.specs.Machine.{State, goes, at_expr, after_name, feed};
ghost use Rattle.asm_laws_height.specs.Peaks.{peak};
ghost use Rattle.asm_laws_height.specs.Rises.{Rise as RiseOf, ExprRise, capped_rise};
ghost use Rattle.asm_grammar_nodes.specs.Heights.{counted};
ghost use Rattle.asm_grammar_nodes.specs.Rises.{rise_view};
ghost use Rattle.asm_grammar_nodes.specs.Views.{lexeme_view, word_view};
ghost use Rattle.asm_grammar_exprs.specs.Views.{innermost_view, frames_view, reading_view, expr_step_view};

use crate::frame::Callee;
use crate::frames::Frames;
use crate::operand::{arguments_step, minus_step, operand_step};
use crate::resume::{index_step, name_step, resumed};
use asm_grammar_nodes::{Height, Lexeme, Rise, TallExpr, Word};
use std::alloc::{AllocError, Global};

/// What is complete so far of the innermost expression, or what must come.
#[derive(Drop)]
pub(crate) enum Innermost {
    /// An expression.
    Operand,
    /// The operand of this prefix `-`, or a number.
    Minus(Word),
    /// After a name, which may be called, indexed or assigned to.
    Name(Word),
    /// After an element, which may be called or assigned to.
    Element(Word, TallExpr),
    /// After an expression.
    Complete(TallExpr),
    /// The arguments of a call, or the `)` that ends them.
    Arguments(Callee),
}

/// An expression that is being read: the state, and what is open round it.
#[derive(Drop)]
pub struct ExprReading {
    /// Of the innermost expression.
    pub(crate) level: u8,
    pub(crate) innermost: Innermost,
    pub(crate) frames: Frames,
}

/// What one token does to an expression.
#[derive(Drop)]
pub enum ExprStep {
    /// The token is taken.
    On(ExprReading),
    /// The expression had ended before the token, which isn't taken.
    Done(TallExpr),
    /// The token can't come here.
    Stuck,
}

impl ExprReading {
    /// An expression of this level is to come.
    pub fn start(alloc: Global, level: u8) -> ExprReading
        ensures { (k : ExprTree → State) → reading_view result k ≡ at_expr level k }
    {
        ExprReading {
            level,
            innermost: Innermost::Operand,
            frames: Frames::new(alloc),
        }
    }

    /// The name that begins an expression of this level has been read.
    pub fn after_name(alloc: Global, level: u8, name: Word) -> ExprReading
        ensures { (k : ExprTree → State) → reading_view result k ≡ after_name level (word_view name) k }
    {
        ExprReading {
            level,
            innermost: Innermost::Name(name),
            frames: Frames::new(alloc),
        }
    }

    /// Reads one token.
    #[tactic(auto, using(crate::proofs::Views::views))]
    pub fn feed(self, alloc: Global, token: &Lexeme<'_>) -> Result<ExprStep, AllocError>
        ensures { IfOk result (λ r. (k : ExprTree → State) → expr_step_view r k (lexeme_view token.now) ≡ feed (reading_view self k) (lexeme_view token.now)) }
    {
        let ExprReading {
            level,
            innermost,
            frames,
        } = self;
        match innermost {
            Innermost::Operand => operand_step(alloc, level, frames, token),
            Innermost::Minus(minus) => minus_step(alloc, level, minus, frames, token),
            Innermost::Name(name) => name_step(alloc, level, name, frames, token),
            Innermost::Element(name, index) => {
                index_step(alloc, level, name, index, frames, token)
            }
            Innermost::Complete(expr) => resumed(alloc, level, expr, frames, token),
            Innermost::Arguments(callee) => arguments_step(alloc, level, callee, frames, token),
        }
    }

    /// How high the highest node is that may end at the last token, where `outer` is open round the whole expression.
    pub fn peak(&self, outer: Rise) -> Height
        ensures { (k : ExprTree → State) (r : RiseOf) → capped_rise 1001 r ≡ rise_view outer → ExprRise r k → result.count ≡ counted (peak (reading_view self.now k)) }
    {
        let rise = self.frames.rise(outer);
        match &self.innermost {
            Innermost::Operand | Innermost::Minus(_) | Innermost::Arguments(_) => Height::none(),
            Innermost::Name(_) => rise.risen(Height::leaf()),
            Innermost::Element(_, index) => rise.risen(index.height().above()),
            Innermost::Complete(expr) => rise.risen(expr.height()),
        }
    }
}

/// The token is taken, and leads here.
pub(crate) fn on(level: u8, innermost: Innermost, frames: Frames) -> ExprStep
    ensures { (k : ExprTree → State) (t : Token) → expr_step_view result k t ≡ goes (innermost_view level innermost (frames_view frames k)) }
{
    ExprStep::On(ExprReading {
        level,
        innermost,
        frames,
    })
}
