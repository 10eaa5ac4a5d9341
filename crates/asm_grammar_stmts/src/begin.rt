//! The first token of a statement.

ghost use Rattle.std.specs.Prelude.{◌≡◌, IfOk};
ghost use Rattle.asm_lang.specs.Trees.{StmtTrees, ExprTree};
ghost use Rattle.asm_lang.specs.Machine.{State as Machine, Step, at_expr, stmt_by, feed};
ghost use Rattle.asm_grammar_nodes.specs.Views.{lexeme_view};
ghost use Rattle.asm_grammar_stmts.specs.Views.{around_view, next_view, body_step_view, begun_view, purpose_view};

use crate::classes::list_end;
use crate::clauses::list_end_step;
use crate::finish::{enter, finish};
use crate::frame::{Frame, Listing};
use crate::frames::Around;
use crate::items::Items;
use crate::state::{BodyStep, Condition, Jump, Purpose, State, on};
use asm_grammar_exprs::{ExprReading, ExprStep};
use asm_grammar_nodes::{Class, Lexeme, TallStmt, Word};
use std::alloc::{AllocError, Global};

/// A token where a statement is to come, or where a list may end.
pub(crate) fn statement_step(
    alloc: Global,
    around: Around,
    token: &Lexeme<'_>,
) -> Result<BodyStep, AllocError>
    ensures { IfOk result (λ r. (k : StmtTrees → Step) → body_step_view r k (lexeme_view token.now) ≡ feed (next_view around k) (lexeme_view token.now)) }
{
    match list_end(token.class) {
        Some(end) => list_end_step(alloc, around, end),
        None => begin_step(alloc, around, token),
    }
}

/// What the token begins, or None where no expression begins with it.
fn begun(alloc: Global, token: &Lexeme<'_>) -> Result<Option<ExprReading>, AllocError>
    ensures { IfOk result (λ r. (k : ExprTree → Machine) → begun_view r k (lexeme_view token.now) ≡ feed (at_expr 0 k) (lexeme_view token.now)) }
{
    match ExprReading::start(alloc, 0).feed(alloc, token) {
        Ok(step) => match step {
            ExprStep::On(expr) => Ok(Some(expr)),
            // Nothing is complete before its first token.
            ExprStep::Done(_) => Ok(None),
            ExprStep::Stuck => Ok(None),
        },
        Err(error) => Err(error),
    }
}

/// A token where an expression is to come.
pub(crate) fn expression_begins(
    alloc: Global,
    purpose: Purpose,
    around: Around,
    token: &Lexeme<'_>,
) -> Result<BodyStep, AllocError>
    ensures { IfOk result (λ r. (k : StmtTrees → Step) → body_step_view r k (lexeme_view token.now) ≡ feed (at_expr 0 (purpose_view purpose (around_view around k))) (lexeme_view token.now)) }
{
    match begun(alloc, token) {
        Ok(begun) => match begun {
            Some(expr) => Ok(on(State::Expression(expr, purpose), around)),
            None => Ok(BodyStep::Stuck),
        },
        Err(error) => Err(error),
    }
}

/// The first token of a statement.
fn begin_step(alloc: Global, around: Around, token: &Lexeme<'_>) -> Result<BodyStep, AllocError>
    ensures { IfOk result (λ r. (k : StmtTrees → Step) → body_step_view r k (lexeme_view token.now) ≡ stmt_by (lexeme_view token.now).class (lexeme_view token.now) (around_view around k)) }
{
    let at = token.at;
    match token.class {
        Class::Semicolon => finish(alloc, TallStmt::empty(at), around),
        Class::OpenBrace => { enter(Frame::Item(Items::new(alloc), Listing::Block(at)), around) }
        Class::If => Ok(on(State::Condition(Condition::If(at)), around)),
        Class::While => Ok(on(State::Condition(Condition::While(at)), around)),
        Class::Do => enter(Frame::DoBody(at), around),
        Class::For => Ok(on(State::ForParen(at), around)),
        Class::Return => Ok(on(State::Return(at), around)),
        Class::Break => Ok(on(State::Target(Jump::Break, at), around)),
        Class::Continue => Ok(on(State::Target(Jump::Continue, at), around)),
        Class::Switch => Ok(on(State::Condition(Condition::Switch(at)), around)),
        Class::Identifier => match Word::of(alloc, token) {
            Ok(name) => Ok(on(State::Name(name), around)),
            Err(error) => Err(error),
        },
        _ => expression_begins(alloc, Purpose::Plain(at), around, token),
    }
}
