//! Expressions of statements.

ghost use Rattle.std.specs.Prelude.{◌≡◌, IfOk};
ghost use Rattle.asm_lang.specs.Trees.{StmtTrees};
ghost use Rattle.asm_lang.specs.Machine.{Step, after_stmt_name, feed};
ghost use Rattle.asm_grammar_nodes.specs.Views.{lexeme_view, word_view};
ghost use Rattle.asm_grammar_exprs.specs.Views.{reading_view};
ghost use Rattle.asm_grammar_stmts.specs.Views.{around_view, body_step_view, purpose_view};

use crate::frames::Around;
use crate::labels::labelled;
use crate::state::{BodyStep, Purpose, State, on};
use asm_grammar_exprs::{ExprReading, ExprStep};
use asm_grammar_nodes::{Class, Lexeme, Word};
use std::alloc::{AllocError, Global};

/// A token after a name that begins a statement: a `:` makes it a label.
pub(crate) fn name_step(
    alloc: Global,
    name: Word,
    around: Around,
    token: &Lexeme<'_>,
) -> Result<BodyStep, AllocError>
    ensures { IfOk result (λ r. (k : StmtTrees → Step) → body_step_view r k (lexeme_view token.now) ≡ feed (after_stmt_name (word_view name) (around_view around k)) (lexeme_view token.now)) }
{
    match token.class {
        Class::Colon => match labelled(alloc, name, around) {
            Ok(around) => Ok(on(State::Statement, around)),
            Err(error) => Err(error),
        },
        _ => {
            let purpose = Purpose::Plain(name.at);
            let expr = ExprReading::after_name(alloc, 0, name);
            expression_step(alloc, expr, purpose, around, token)
        }
    }
}

/// A token in an expression, or after it.
pub(crate) fn expression_step(
    alloc: Global,
    expr: ExprReading,
    purpose: Purpose,
    around: Around,
    token: &Lexeme<'_>,
) -> Result<BodyStep, AllocError>
    ensures { IfOk result (λ r. (k : StmtTrees → Step) → body_step_view r k (lexeme_view token.now) ≡ feed (reading_view expr (purpose_view purpose (around_view around k))) (lexeme_view token.now)) }
{
    match expr.feed(alloc, token) {
        Ok(step) => match step {
            ExprStep::On(expr) => Ok(on(State::Expression(expr, purpose), around)),
            ExprStep::Done(expr) => purpose.ended(alloc, expr, around, token),
            ExprStep::Stuck => Ok(BodyStep::Stuck),
        },
        Err(error) => Err(error),
    }
}
