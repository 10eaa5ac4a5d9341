//! What stands between a statement's first token and what is in it.

ghost use Rattle.std.specs.Prelude.{◌≡◌, ◌&&◌, not, Some, None, IfOk};
ghost use Rattle.asm_lang.specs.Trees.{StmtTrees, returns};
ghost use Rattle.asm_lang.specs.Machine.{at_return, at_target, Step, feed, advance, condition, same_class, begins_expr};
ghost use Rattle.asm_grammar_nodes.specs.Views.{lexeme_view, name_option};
ghost use Rattle.asm_grammar_nodes.specs.Tall.{stmt_tall_view};
ghost use Rattle.asm_grammar_stmts.specs.Views.{around_view, body_step_view, condition_view, for_view, part_view, part_end, jump_view};

use crate::begin::expression_begins;
use crate::classes::{Sign, begins_expr, is};
use crate::ending::end_step;
use crate::frames::Around;
use crate::state::{BodyStep, Condition, ForPart, Jump, Purpose, State, on};
use asm_grammar_exprs::ExprReading;
use asm_grammar_nodes::{Class, Lexeme, TallStmt};
use sem_words::Text;
use std::alloc::{AllocError, Global};

/// The `(` before a condition.
pub(crate) fn condition_step(
    alloc: Global,
    kind: Condition,
    around: Around,
    token: &Lexeme<'_>,
) -> Result<BodyStep, AllocError>
    ensures { IfOk result (λ r. (k : StmtTrees → Step) → body_step_view r k (lexeme_view token.now) ≡ advance (condition (condition_view kind (around_view around k))) (lexeme_view token.now)) }
{
    if is(token.class, Sign::OpenParen) {
        let expr = ExprReading::start(alloc, 0);
        Ok(on(State::Expression(expr, Purpose::Condition(kind)), around))
    } else {
        Ok(BodyStep::Stuck)
    }
}

/// The `(` of a for statement.
pub(crate) fn for_step(at: u64, around: Around, token: &Lexeme<'_>) -> Result<BodyStep, AllocError>
    ensures { IfOk result (λ r. (k : StmtTrees → Step) → body_step_view r k (lexeme_view token.now) ≡ advance (for_view at (around_view around k)) (lexeme_view token.now)) }
{
    if is(token.class, Sign::OpenParen) {
        Ok(on(State::Part(at, ForPart::First), around))
    } else {
        Ok(BodyStep::Stuck)
    }
}

/// Whether the token ends a part of the head of a for statement.
pub(crate) fn ends_part(part: &ForPart, token: &Lexeme<'_>) -> bool
    ensures { result ≡ same_class (part_end part.now) (lexeme_view token.now).class }
{
    match part {
        ForPart::First => is(token.class, Sign::Semicolon),
        ForPart::Condition(_) => is(token.class, Sign::Semicolon),
        ForPart::Step(_, _) => is(token.class, Sign::CloseParen),
    }
}

/// A token where an expression may be left out.
pub(crate) fn part_step(
    alloc: Global,
    at: u64,
    part: ForPart,
    around: Around,
    token: &Lexeme<'_>,
) -> Result<BodyStep, AllocError>
    ensures { IfOk result (λ r. (k : StmtTrees → Step) → body_step_view r k (lexeme_view token.now) ≡ feed (part_view at part (around_view around k)) (lexeme_view token.now)) }
{
    if begins_expr(token.class) {
        return expression_begins(alloc, Purpose::For(at, part), around, token);
    }
    if ends_part(&part, token) {
        part.ended(at, None, around)
    } else {
        Ok(BodyStep::Stuck)
    }
}

/// Whether the token begins what a `return` before it returns.
fn is_returned(token: &Lexeme<'_>) -> bool
    ensures { result ≡ (begins_expr (lexeme_view token.now).class && not (lexeme_view token.now).line) }
{
    begins_expr(token.class) && !token.line
}

/// A token after `return`: an expression begins in the same line, if there is one.
pub(crate) fn return_step(
    alloc: Global,
    at: u64,
    around: Around,
    token: &Lexeme<'_>,
) -> Result<BodyStep, AllocError>
    ensures { IfOk result (λ r. (k : StmtTrees → Step) → body_step_view r k (lexeme_view token.now) ≡ feed (at_return (λ o. around_view around k (returns at o))) (lexeme_view token.now)) }
{
    if is_returned(token) {
        expression_begins(alloc, Purpose::Returned(at), around, token)
    } else {
        end_step(alloc, TallStmt::returns(at, None), around, token)
    }
}

/// The statement that leaves others, with the label of the one that it leaves.
fn jump(kind: Jump, at: u64, label: Option<Text>) -> TallStmt
    ensures { stmt_tall_view result ≡ jump_view kind at (name_option label) }
{
    match kind {
        Jump::Break => TallStmt::breaks(at, label),
        Jump::Continue => TallStmt::continues(at, label),
    }
}

/// A token after `break` or `continue`: a label stands in the same line, if there is one.
pub(crate) fn target_step(
    alloc: Global,
    kind: Jump,
    at: u64,
    around: Around,
    token: &Lexeme<'_>,
) -> Result<BodyStep, AllocError>
    ensures { IfOk result (λ r. (k : StmtTrees → Step) → body_step_view r k (lexeme_view token.now) ≡ feed (at_target (λ l. around_view around k (jump_view kind at l))) (lexeme_view token.now)) }
{
    match token.class {
        Class::Identifier => {
            if token.line {
                return end_step(alloc, jump(kind, at, None), around, token);
            }
            match Text::from_bytes(alloc, token.text) {
                Ok(label) => Ok(on(State::End(jump(kind, at, Some(label))), around)),
                Err(error) => Err(error),
            }
        }
        _ => end_step(alloc, jump(kind, at, None), around, token),
    }
}
