//! The reading of a body.

ghost use Rattle.std.specs.Prelude.{◌≡◌, IfOk};
ghost use Rattle.asm_lang.specs.Lexemes.{Lexeme as Token};
ghost use Rattle.asm_lang.specs.Trees.{ExprTree, StmtTrees, no_stmt};
ghost use Rattle.asm_lang.specs.Machine.{State as Machine, Step, goes, at_stmts, advance, feed};
ghost use Rattle.asm_laws_height.specs.Peaks.{step_peak};
ghost use Rattle.asm_grammar_nodes.specs.Heights.{counted};
ghost use Rattle.asm_grammar_nodes.specs.Views.{lexeme_view};
ghost use Rattle.asm_grammar_nodes.specs.Tall.{tall_view};
ghost use Rattle.asm_grammar_exprs.specs.Views.{reading_view};
ghost use Rattle.asm_grammar_stmts.specs.Views.{around_view, body_view, body_step_view};
ghost use Rattle.asm_grammar_stmts.specs.Fed.{body_fed_view, ended_view, expr_fed_view};

use crate::frames::{Around, Frames};
use crate::items::Items;
use crate::state::{BodyFed, BodyReading, BodyStep, State, let_go};
use asm_grammar_exprs::{ExprReading, ExprStep};
use asm_grammar_nodes::{Height, Lexeme, TallExpr};
use std::alloc::{AllocError, Global};
use std::mem;

/// What one token did to an expression, in place.
#[derive(Drop)]
enum ExprFed {
    On,
    /// It had ended before the token, which isn't taken.
    Done(TallExpr),
    Stuck,
}

fn feed_expression(
    alloc: Global,
    expr: &mut ExprReading,
    token: &Lexeme<'_>,
) -> Result<ExprFed, AllocError>
    ensures { IfOk result (λ r. (k : ExprTree → Machine) → expr_fed_view r expr.new k (lexeme_view token.now) ≡ feed (reading_view expr.old k) (lexeme_view token.now)) }
{
    match mem::replace(expr, ExprReading::start(alloc, 0)).feed(alloc, token) {
        Ok(step) => match step {
            ExprStep::On(next) => {
                let_go(mem::replace(expr, next));
                Ok(ExprFed::On)
            }
            ExprStep::Done(whole) => Ok(ExprFed::Done(whole)),
            ExprStep::Stuck => Ok(ExprFed::Stuck),
        },
        Err(error) => Err(error),
    }
}

impl BodyReading {
    /// The first statement is to come, or the `}` of the body.
    pub fn start(alloc: Global) -> BodyReading
        ensures { (k : StmtTrees → Step) → body_view result k ≡ goes (at_stmts no_stmt k) }
    {
        BodyReading {
            state: State::Statement,
            around: Around {
                body: Items::new(alloc),
                frames: Frames::new(alloc),
            },
        }
    }

    /// Reads one token, in place. An expression that goes on is all that is moved.
    pub fn feed(&mut self, alloc: Global, token: &Lexeme<'_>) -> Result<BodyFed, AllocError>
        ensures { IfOk result (λ r. (k : StmtTrees → Step) → body_fed_view r self.new k (lexeme_view token.now) ≡ advance (body_view self.old k) (lexeme_view token.now)) }
    {
        match &mut self.state {
            State::Expression(expr, _) => match feed_expression(alloc, expr, token) {
                Ok(fed) => match fed {
                    ExprFed::On => Ok(BodyFed::On),
                    ExprFed::Done(whole) => self.after_expression(alloc, whole, token),
                    ExprFed::Stuck => Ok(BodyFed::Stuck),
                },
                Err(error) => Err(error),
            },
            _ => self.move_on(alloc, token),
        }
    }

    /// A token after the expression, which has ended.
    fn after_expression(
        &mut self,
        alloc: Global,
        expr: TallExpr,
        token: &Lexeme<'_>,
    ) -> Result<BodyFed, AllocError>
        ensures { IfOk result (λ r. (k : StmtTrees → Step) → body_fed_view r self.new k (lexeme_view token.now) ≡ ended_view self.old.state (tall_view expr) (around_view self.old.around k) (lexeme_view token.now)) }
    {
        let BodyReading { state, around } = self.taken(alloc);
        match state.expression_ended(alloc, expr, around, token) {
            Ok(step) => Ok(self.put(step)),
            Err(error) => Err(error),
        }
    }

    /// Reads one token, by a step of the whole.
    fn move_on(&mut self, alloc: Global, token: &Lexeme<'_>) -> Result<BodyFed, AllocError>
        ensures { IfOk result (λ r. (k : StmtTrees → Step) → body_fed_view r self.new k (lexeme_view token.now) ≡ advance (body_view self.old k) (lexeme_view token.now)) }
    {
        let BodyReading { state, around } = self.taken(alloc);
        match state.step(alloc, around, token) {
            Ok(step) => Ok(self.put(step)),
            Err(error) => Err(error),
        }
    }

    /// What was read so far, taken out.
    fn taken(&mut self, alloc: Global) -> BodyReading
        ensures { result ≡ self.old }
    {
        mem::replace(self, BodyReading::start(alloc))
    }

    /// Goes on where a step leads.
    fn put(&mut self, step: BodyStep) -> BodyFed
        ensures { (k : StmtTrees → Step) (t : Token) → body_fed_view result self.new k t ≡ body_step_view step k t }
    {
        match step {
            BodyStep::On(next) => {
                *self = next;
                BodyFed::On
            }
            BodyStep::Done(stmts) => BodyFed::Done(stmts),
            BodyStep::Stuck => BodyFed::Stuck,
        }
    }

    /// How high the highest node is that may end at the last token.
    pub fn peak(&self) -> Height
        ensures { (k : StmtTrees → Step) → result.count ≡ counted (step_peak (body_view self.now k)) }
    {
        let Around { body, frames } = &self.around;
        let reach = frames.reach();
        match &self.state {
            State::Statement => frames.last(body),
            State::Name(_) => reach.rise.risen(Height::leaf().above()),
            State::Expression(expr, purpose) => expr.peak(purpose.rise(reach.rise)),
            State::Return(_) => reach.rise.risen(Height::leaf()),
            State::Target(_, _) => reach.rise.risen(Height::leaf()),
            State::End(stmt) => reach.risen(stmt),
            State::DoEnd(stmt) => reach.risen(stmt),
            State::AfterArm(_, condition, first) => reach.body(condition.height()).risen(first),
            State::AfterBody(_, body) => body.as_body(),
            State::Part(_, _) => Height::none(),
            State::InSwitch(_, _) => Height::none(),
            State::Condition(_) | State::ForParen(_) | State::SwitchBrace(_, _) => Height::none(),
        }
    }
}
