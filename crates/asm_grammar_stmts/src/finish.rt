//! A complete statement and what is open round it.

ghost use Rattle.std.specs.Prelude.{◌≡◌, IfOk};
ghost use Rattle.asm_lang.specs.Lexemes.{Lexeme as Token};
ghost use Rattle.asm_lang.specs.Trees.{StmtTrees};
ghost use Rattle.asm_lang.specs.Machine.{Step, goes, feed};
ghost use Rattle.asm_grammar_nodes.specs.Views.{lexeme_view};
ghost use Rattle.asm_grammar_nodes.specs.Tall.{stmt_tall_view};
ghost use Rattle.asm_grammar_stmts.specs.Items.{items_view};
ghost use Rattle.asm_grammar_stmts.specs.Views.{around_view, body_step_view, frame_next, in_body, settled_view};

use crate::frame::{Enclosed, Frame};
use crate::frames::{Around, Frames};
use crate::items::Items;
use crate::state::{BodyStep, State, on};
use asm_grammar_nodes::{Class, Lexeme, TallStmt};
use std::alloc::{AllocError, Global};

/// The token is taken, and a statement in this frame is to come.
pub(crate) fn enter(frame: Frame, around: Around) -> Result<BodyStep, AllocError>
    ensures { IfOk result (λ r. (k : StmtTrees → Step) (t : Token) → body_step_view r k t ≡ goes (frame_next frame (around_view around k))) }
{
    match around.with(frame) {
        Ok(around) => Ok(on(State::Statement, around)),
        Err(error) => Err(error),
    }
}

/// The token is taken, and a further statement of the body is to come, or its end.
fn listed(alloc: Global, body: Items, stmt: TallStmt) -> Result<BodyStep, AllocError>
    ensures { IfOk result (λ r. (k : StmtTrees → Step) (t : Token) → body_step_view r k t ≡ goes (in_body (items_view body) k (stmt_tall_view stmt))) }
{
    match body.with(stmt) {
        Ok(body) => {
            let frames = Frames::new(alloc);
            Ok(on(State::Statement, Around { body, frames }))
        }
        Err(error) => Err(error),
    }
}

/// A statement has ended, by the token.
pub(crate) fn finish(alloc: Global, stmt: TallStmt, around: Around) -> Result<BodyStep, AllocError>
    ensures { IfOk result (λ r. (k : StmtTrees → Step) (t : Token) → body_step_view r k t ≡ goes (around_view around k (stmt_tall_view stmt))) }
{
    let (body, mut frames) = around.into_parts();
    let mut stmt = stmt;
    while let Some(frame) = frames.pop() {
        let enclosed = match frame.around(alloc, stmt) {
            Ok(enclosed) => enclosed,
            Err(error) => return Err(error),
        };
        match enclosed {
            Enclosed::Stmt(whole) => stmt = whole,
            Enclosed::Item(item) => return enter(item, Around { body, frames }),
            Enclosed::Arm(at, condition, first) => {
                let state = State::AfterArm(at, condition, first);
                return Ok(on(state, Around { body, frames }));
            }
            Enclosed::Body(at, stmt) => {
                let state = State::AfterBody(at, stmt);
                return Ok(on(state, Around { body, frames }));
            }
        }
    }
    listed(alloc, body, stmt)
}

/// Where a complete statement leads before a token.
#[derive(Drop)]
pub(crate) enum Settled {
    /// The token comes where a list goes on.
    Statement(Around),
    /// The token comes after the body of a do statement.
    AfterBody(u64, TallStmt, Around),
    /// The token was an `else`, and its arm follows.
    OtherArm(Around),
}

/// The token was the `else` before what is in this frame.
fn other_arm(frame: Frame, around: Around) -> Result<Settled, AllocError>
    ensures { IfOk result (λ r. (k : StmtTrees → Step) (t : Token) → settled_view r k t ≡ goes (frame_next frame (around_view around k))) }
{
    match around.with(frame) {
        Ok(around) => Ok(Settled::OtherArm(around)),
        Err(error) => Err(error),
    }
}

/// A statement has ended before the token, which isn't taken unless it is the `else` of an `if` that ends with it.
pub(crate) fn settle(
    alloc: Global,
    stmt: TallStmt,
    around: Around,
    token: &Lexeme<'_>,
) -> Result<Settled, AllocError>
    ensures { IfOk result (λ r. (k : StmtTrees → Step) → settled_view r k (lexeme_view token.now) ≡ feed (around_view around k (stmt_tall_view stmt)) (lexeme_view token.now)) }
{
    let (body, mut frames) = around.into_parts();
    let mut stmt = stmt;
    while let Some(frame) = frames.pop() {
        let enclosed = match frame.around(alloc, stmt) {
            Ok(enclosed) => enclosed,
            Err(error) => return Err(error),
        };
        match enclosed {
            Enclosed::Stmt(whole) => stmt = whole,
            Enclosed::Item(item) => match frames.with(item) {
                Ok(frames) => return Ok(Settled::Statement(Around { body, frames })),
                Err(error) => return Err(error),
            },
            Enclosed::Arm(at, condition, first) => {
                if let Class::Else = token.class {
                    let frame = Frame::OtherArm(at, condition, first);
                    return other_arm(frame, Around { body, frames });
                }
                match TallStmt::if_only(alloc, at, condition, first) {
                    Ok(whole) => stmt = whole,
                    Err(error) => return Err(error),
                }
            }
            Enclosed::Body(at, stmt) => {
                return Ok(Settled::AfterBody(at, stmt, Around { body, frames }));
            }
        }
    }
    match body.with(stmt) {
        Ok(body) => {
            let frames = Frames::new(alloc);
            Ok(Settled::Statement(Around { body, frames }))
        }
        Err(error) => Err(error),
    }
}
