//! The end of a statement before a token.

ghost use Rattle.std.specs.Prelude.{◌≡◌, IfOk};
ghost use Rattle.asm_lang.specs.Trees.{StmtTrees};
ghost use Rattle.asm_lang.specs.Machine.{ends, ends_do, after_arm, after_body, feed, Step};
ghost use Rattle.asm_grammar_nodes.specs.Views.{lexeme_view};
ghost use Rattle.asm_grammar_nodes.specs.Tall.{tall_view, stmt_tall_view};
ghost use Rattle.asm_grammar_stmts.specs.Views.{around_view, body_step_view, do_condition};

use crate::begin::statement_step;
use crate::classes::{Sign, is, may_miss_before};
use crate::finish::{Settled, enter, finish, settle};
use crate::frame::Frame;
use crate::frames::Around;
use crate::state::{BodyStep, Condition, State, on};
use asm_grammar_nodes::{Class, Lexeme, TallExpr, TallStmt};
use std::alloc::{AllocError, Global};

/// A token after the body of a do statement.
pub(crate) fn after_body_step(
    at: u64,
    body: TallStmt,
    around: Around,
    token: &Lexeme<'_>,
) -> Result<BodyStep, AllocError>
    ensures { IfOk result (λ r. (k : StmtTrees → Step) → body_step_view r k (lexeme_view token.now) ≡ feed (after_body (stmt_tall_view body) (do_condition at (stmt_tall_view body) (around_view around k))) (lexeme_view token.now)) }
{
    if is(token.class, Sign::While) {
        Ok(on(State::Condition(Condition::Do(at, body)), around))
    } else {
        Ok(BodyStep::Stuck)
    }
}

/// A token after a complete statement, where the token isn't its `;`.
pub(crate) fn next_step(
    alloc: Global,
    stmt: TallStmt,
    around: Around,
    token: &Lexeme<'_>,
) -> Result<BodyStep, AllocError>
    ensures { IfOk result (λ r. (k : StmtTrees → Step) → body_step_view r k (lexeme_view token.now) ≡ feed (around_view around k (stmt_tall_view stmt)) (lexeme_view token.now)) }
{
    match settle(alloc, stmt, around, token) {
        Ok(settled) => match settled {
            Settled::Statement(around) => statement_step(alloc, around, token),
            Settled::AfterBody(at, body, around) => after_body_step(at, body, around, token),
            Settled::OtherArm(around) => Ok(on(State::Statement, around)),
        },
        Err(error) => Err(error),
    }
}

/// A token at the end of a statement, where its `;` may be missing.
#[tactic(auto, using(crate::proofs::StepLemmas::missing))]
pub(crate) fn end_step(
    alloc: Global,
    stmt: TallStmt,
    around: Around,
    token: &Lexeme<'_>,
) -> Result<BodyStep, AllocError>
    ensures { IfOk result (λ r. (k : StmtTrees → Step) → body_step_view r k (lexeme_view token.now) ≡ feed (ends (around_view around k (stmt_tall_view stmt))) (lexeme_view token.now)) }
{
    match token.class {
        Class::Semicolon => finish(alloc, stmt, around),
        class => {
            if may_miss_before(class, token.line) {
                next_step(alloc, stmt, around, token)
            } else {
                Ok(BodyStep::Stuck)
            }
        }
    }
}

/// A token at the end of a do statement, where a `;` may stand.
pub(crate) fn do_end_step(
    alloc: Global,
    stmt: TallStmt,
    around: Around,
    token: &Lexeme<'_>,
) -> Result<BodyStep, AllocError>
    ensures { IfOk result (λ r. (k : StmtTrees → Step) → body_step_view r k (lexeme_view token.now) ≡ feed (ends_do (around_view around k (stmt_tall_view stmt))) (lexeme_view token.now)) }
{
    match token.class {
        Class::Semicolon => finish(alloc, stmt, around),
        _ => next_step(alloc, stmt, around, token),
    }
}

/// A token after the first arm of an `if`.
pub(crate) fn arm_step(
    alloc: Global,
    at: u64,
    condition: TallExpr,
    first: TallStmt,
    around: Around,
    token: &Lexeme<'_>,
) -> Result<BodyStep, AllocError>
    ensures { IfOk result (λ r. (k : StmtTrees → Step) → body_step_view r k (lexeme_view token.now) ≡ feed (after_arm at (tall_view condition) (stmt_tall_view first) (around_view around k)) (lexeme_view token.now)) }
{
    match token.class {
        Class::Else => enter(Frame::OtherArm(at, condition, first), around),
        _ => match TallStmt::if_only(alloc, at, condition, first) {
            Ok(whole) => next_step(alloc, whole, around, token),
            Err(error) => Err(error),
        },
    }
}
