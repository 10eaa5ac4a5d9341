//! A token where an expression must begin.

ghost use Rattle.std.specs.Prelude.{◌≡◌, IfOk};
ghost use Rattle.asm_lang.specs.Trees.{ExprTree, unary};
ghost use Rattle.asm_lang.specs.Lexemes.{Lexeme as Token};
ghost use Rattle.asm_lang.specs.Machine.{State, goes, at_expr, expr_by, minus_by, arguments_by, after_expr};
ghost use Rattle.sem_words.specs.declared.js_value.JsUnary.TheVariants.{Neg};
ghost use Rattle.asm_grammar_nodes.specs.Views.{lexeme_view, class_view, word_view};
ghost use Rattle.asm_grammar_exprs.specs.Views.{expr_step_view, frames_view, callee_view, first_argument_view};

use crate::frame::{Callee, Enclosure, Frame, Kind, Node};
use crate::frames::Frames;
use crate::item::first_argument;
use crate::state::{ExprStep, Innermost, on};
use asm_grammar_nodes::{Class, Lexeme, TallExpr, TallExprs, Word};
use sem_words::{JsOp, JsUnary};
use std::alloc::{AllocError, Global};

/// The level of a prefix operator's operand.
const PREFIX_LEVEL: u8 = 13;

/// Where an expression of this level must begin.
#[tactic(auto, using(crate::proofs::Views::views))]
pub(crate) fn operand_step(
    alloc: Global,
    level: u8,
    frames: Frames,
    token: &Lexeme<'_>,
) -> Result<ExprStep, AllocError>
    ensures { IfOk result (λ r. (k : ExprTree → State) → expr_step_view r k (lexeme_view token.now) ≡ expr_by (class_view token.now.class) (lexeme_view token.now) level (frames_view frames k)) }
{
    let at = token.at;
    match token.class {
        Class::Number => {
            let literal = TallExpr::literal(alloc, at, token.value)?;
            Ok(on(level, Innermost::Complete(literal), frames))
        }
        Class::Decimal => {
            let decimals = TallExpr::decimals(alloc, Word::of(alloc, token)?)?;
            Ok(on(level, Innermost::Complete(decimals), frames))
        }
        Class::Identifier => { Ok(on(level, Innermost::Name(Word::of(alloc, token)?), frames)) }
        Class::OpenParen => {
            let kind = Kind::Closed(Enclosure::Parentheses);
            let frames = frames.push(Frame { level, kind })?;
            Ok(on(0, Innermost::Operand, frames))
        }
        Class::Operator(JsOp::Sub) => {
            Ok(on(level, Innermost::Minus(Word::of(alloc, token)?), frames))
        }
        Class::Operator(JsOp::Add) => prefix_step(level, JsUnary::Plus, at, frames),
        Class::Tilde => prefix_step(level, JsUnary::BitNot, at, frames),
        Class::Bang => prefix_step(level, JsUnary::Not, at, frames),
        _ => Ok(ExprStep::Stuck),
    }
}

/// A prefix operator other than `-` has been read.
fn prefix_step(
    level: u8,
    operator: JsUnary,
    at: u64,
    frames: Frames,
) -> Result<ExprStep, AllocError>
    ensures { IfOk result (λ r. (k : ExprTree → State) (t : Token) → expr_step_view r k t ≡ goes (at_expr 13 (λ e. after_expr level (unary at operator e) (frames_view frames k)))) }
{
    let frames = prefixed(level, operator, at, frames)?;
    Ok(on(PREFIX_LEVEL, Innermost::Operand, frames))
}

/// What is open round the operand of a prefix operator.
#[tactic(auto, using(crate::proofs::Views::views))]
fn prefixed(level: u8, operator: JsUnary, at: u64, frames: Frames) -> Result<Frames, AllocError>
    ensures { IfOk result (λ r. (k : ExprTree → State) → frames_view r k ≡ (λ e. after_expr level (unary at operator e) (frames_view frames k))) }
{
    let kind = Kind::Node(Node::Prefix { operator, at });
    frames.push(Frame { level, kind })
}

/// After a prefix `-`.
#[tactic(auto, using(crate::proofs::Views::views))]
pub(crate) fn minus_step(
    alloc: Global,
    level: u8,
    minus: Word,
    frames: Frames,
    token: &Lexeme<'_>,
) -> Result<ExprStep, AllocError>
    ensures { IfOk result (λ r. (k : ExprTree → State) → expr_step_view r k (lexeme_view token.now) ≡ minus_by (class_view token.now.class) (word_view minus) (lexeme_view token.now) (λ e. after_expr level e (frames_view frames k))) }
{
    match token.class {
        Class::Number => {
            if token.value == 0 {
                return Ok(ExprStep::Stuck);
            }
            let literal = TallExpr::negative(alloc, minus.at, token.value)?;
            Ok(on(level, Innermost::Complete(literal), frames))
        }
        _ => negated_step(alloc, level, minus.at, frames, token),
    }
}

/// Where the operand of a prefix `-` must begin, whose place this is.
fn negated_step(
    alloc: Global,
    level: u8,
    at: u64,
    frames: Frames,
    token: &Lexeme<'_>,
) -> Result<ExprStep, AllocError>
    ensures { IfOk result (λ r. (k : ExprTree → State) → expr_step_view r k (lexeme_view token.now) ≡ expr_by (class_view token.now.class) (lexeme_view token.now) 13 (λ e. after_expr level (unary at Neg e) (frames_view frames k))) }
{
    let frames = prefixed(level, JsUnary::Neg, at, frames)?;
    operand_step(alloc, PREFIX_LEVEL, frames, token)
}

/// After the `(` of a call.
#[tactic(auto, using(crate::proofs::Views::views))]
pub(crate) fn arguments_step(
    alloc: Global,
    level: u8,
    callee: Callee,
    frames: Frames,
    token: &Lexeme<'_>,
) -> Result<ExprStep, AllocError>
    ensures { IfOk result (λ r. (k : ExprTree → State) → expr_step_view r k (lexeme_view token.now) ≡ arguments_by (class_view token.now.class) (lexeme_view token.now) (λ es. after_expr level (callee_view callee es) (frames_view frames k))) }
{
    match token.class {
        Class::CloseParen => {
            let call = callee.called(alloc, TallExprs::new(alloc))?;
            Ok(on(level, Innermost::Complete(call), frames))
        }
        _ => argument_step(alloc, level, callee, frames, token),
    }
}

/// Where the first argument of a call must begin.
fn argument_step(
    alloc: Global,
    level: u8,
    callee: Callee,
    frames: Frames,
    token: &Lexeme<'_>,
) -> Result<ExprStep, AllocError>
    ensures { IfOk result (λ r. (k : ExprTree → State) → expr_step_view r k (lexeme_view token.now) ≡ expr_by (class_view token.now.class) (lexeme_view token.now) 1 (first_argument_view level callee (frames_view frames k))) }
{
    let frames = first_argument(alloc, level, callee, frames)?;
    operand_step(alloc, 1, frames, token)
}
