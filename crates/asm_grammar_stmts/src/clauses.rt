//! The clauses of a switch.

ghost use Rattle.std.specs.Prelude.{◌≡◌, false, IfOk};
ghost use Rattle.asm_lang.specs.Lexemes.{Lexeme as Token};
ghost use Rattle.asm_lang.specs.Trees.{StmtTrees, StmtTree};
ghost use Rattle.asm_lang.specs.Machine.{State as Machine, at_literal, after_sign, Step, goes, feed, advance, clauses_by, stmts_by, in_case_by};
ghost use Rattle.asm_grammar_nodes.specs.Views.{lexeme_view};
ghost use Rattle.asm_grammar_nodes.specs.Tall.{tall_view, stmt_tall_view, stmts_tall_view};
ghost use Rattle.asm_grammar_stmts.specs.Classes.{end_class};
ghost use Rattle.asm_grammar_stmts.specs.Items.{items_view};
ghost use Rattle.asm_grammar_stmts.specs.Views.{around_view, body_step_view, switch_view, subject_view, value_view, case_view, default_view, listing_view, list_ended as list_ended_view};

use crate::classes::{ListEnd, Sign, is, list_end};
use crate::finish::{enter, finish};
use crate::frame::{Frame, Listing, Switch};
use crate::frames::Around;
use crate::items::Items;
use crate::state::{BodyStep, State, SwitchPart, on};
use asm_grammar_nodes::{Class, Lexeme, TallClauses, TallExpr, TallStmt, TallStmts, Word};
use sem_words::JsOp;
use std::alloc::{AllocError, Global};

/// The `{` of a switch.
pub(crate) fn subject_step(
    alloc: Global,
    at: u64,
    subject: TallExpr,
    around: Around,
    token: &Lexeme<'_>,
) -> Result<BodyStep, AllocError>
    ensures { IfOk result (λ r. (k : StmtTrees → Step) → body_step_view r k (lexeme_view token.now) ≡ advance (subject_view at (tall_view subject) (around_view around k)) (lexeme_view token.now)) }
{
    if is(token.class, Sign::OpenBrace) {
        let clauses = TallClauses::new(alloc);
        let switch = Switch {
            at,
            subject,
            clauses,
        };
        Ok(on(State::InSwitch(SwitchPart::Clause, switch), around))
    } else {
        Ok(BodyStep::Stuck)
    }
}

/// A token where a clause of a switch may begin, or its end.
pub(crate) fn next_clause(
    alloc: Global,
    switch: Switch,
    around: Around,
    end: ListEnd,
) -> Result<BodyStep, AllocError>
    ensures { IfOk result (λ r. (k : StmtTrees → Step) (t : Token) → body_step_view r k t ≡ clauses_by (end_class end) t (switch_view switch (around_view around k))) }
{
    match end {
        ListEnd::Case => Ok(on(State::InSwitch(SwitchPart::Value, switch), around)),
        ListEnd::Default => {
            let part = SwitchPart::DefaultColon;
            Ok(on(State::InSwitch(part, switch), around))
        }
        ListEnd::Brace => finish(alloc, switch.stmt(), around),
    }
}

/// A token where a clause of a switch may begin.
pub(crate) fn clause_step(
    alloc: Global,
    switch: Switch,
    around: Around,
    token: &Lexeme<'_>,
) -> Result<BodyStep, AllocError>
    ensures { IfOk result (λ r. (k : StmtTrees → Step) → body_step_view r k (lexeme_view token.now) ≡ clauses_by (lexeme_view token.now).class (lexeme_view token.now) (switch_view switch (around_view around k))) }
{
    match list_end(token.class) {
        Some(end) => next_clause(alloc, switch, around, end),
        None => Ok(BodyStep::Stuck),
    }
}

/// The value of a case.
pub(crate) fn value_step(
    alloc: Global,
    switch: Switch,
    around: Around,
    token: &Lexeme<'_>,
) -> Result<BodyStep, AllocError>
    ensures { IfOk result (λ r. (k : StmtTrees → Step) → body_step_view r k (lexeme_view token.now) ≡ feed (at_literal false (value_view (switch_view switch (around_view around k)))) (lexeme_view token.now)) }
{
    match token.class {
        Class::Number => {
            let part = SwitchPart::CaseColon(i128::from(token.value));
            Ok(on(State::InSwitch(part, switch), around))
        }
        Class::Operator(JsOp::Sub) => match Word::of(alloc, token) {
            Ok(minus) => {
                let part = SwitchPart::Negative(minus);
                Ok(on(State::InSwitch(part, switch), around))
            }
            Err(error) => Err(error),
        },
        _ => Ok(BodyStep::Stuck),
    }
}

/// The value of a case after its minus sign. A `-0` is no integer.
pub(crate) fn negative_step(
    switch: Switch,
    around: Around,
    token: &Lexeme<'_>,
) -> Result<BodyStep, AllocError>
    ensures { IfOk result (λ r. (k : StmtTrees → Step) (m : Token) → body_step_view r k (lexeme_view token.now) ≡ feed (after_sign false m (value_view (switch_view switch (around_view around k)))) (lexeme_view token.now)) }
{
    match token.class {
        Class::Number => {
            if token.value == 0 {
                return Ok(BodyStep::Stuck);
            }
            let part = SwitchPart::CaseColon(-i128::from(token.value));
            Ok(on(State::InSwitch(part, switch), around))
        }
        _ => Ok(BodyStep::Stuck),
    }
}

/// The `:` after the value of a case.
pub(crate) fn case_step(
    alloc: Global,
    value: i128,
    switch: Switch,
    around: Around,
    token: &Lexeme<'_>,
) -> Result<BodyStep, AllocError>
    ensures { IfOk result (λ r. (k : StmtTrees → Step) → body_step_view r k (lexeme_view token.now) ≡ feed (case_view value (switch_view switch (around_view around k))) (lexeme_view token.now)) }
{
    if is(token.class, Sign::Colon) {
        enter(Frame::CaseItem(value, Items::new(alloc), switch), around)
    } else {
        Ok(BodyStep::Stuck)
    }
}

/// The `:` after `default`.
pub(crate) fn default_step(
    alloc: Global,
    switch: Switch,
    around: Around,
    token: &Lexeme<'_>,
) -> Result<BodyStep, AllocError>
    ensures { IfOk result (λ r. (k : StmtTrees → Step) → body_step_view r k (lexeme_view token.now) ≡ advance (default_view (switch_view switch (around_view around k))) (lexeme_view token.now)) }
{
    if is(token.class, Sign::Colon) {
        let listing = Listing::Default(switch);
        enter(Frame::Item(Items::new(alloc), listing), around)
    } else {
        Ok(BodyStep::Stuck)
    }
}

/// What the `}` after the statements of a list ends.
#[tactic(auto, using(crate::proofs::Following::following))]
fn listed(stmts: TallStmts, listing: Listing) -> Result<TallStmt, AllocError>
    ensures { IfOk result (λ r. (k : StmtTree → Machine) → goes (k (stmt_tall_view r)) ≡ listing_view listing k (stmts_tall_view stmts)) }
{
    match listing {
        Listing::Block(at) => Ok(TallStmt::block(at, stmts)),
        Listing::Default(switch) => match switch.with(None, stmts) {
            Ok(switch) => Ok(switch.stmt()),
            Err(error) => Err(error),
        },
    }
}

/// The statements of a list have ended before the token.
pub(crate) fn list_ended(
    alloc: Global,
    stmts: Items,
    listing: Listing,
    around: Around,
    end: ListEnd,
) -> Result<BodyStep, AllocError>
    ensures { IfOk result (λ r. (k : StmtTrees → Step) (t : Token) → body_step_view r k t ≡ stmts_by (end_class end) t (items_view stmts) (listing_view listing (around_view around k))) }
{
    match end {
        ListEnd::Brace => match listed(stmts.into_stmts(), listing) {
            Ok(whole) => finish(alloc, whole, around),
            Err(error) => Err(error),
        },
        ListEnd::Case | ListEnd::Default => Ok(BodyStep::Stuck),
    }
}

/// The statements of a case have ended before the token.
pub(crate) fn case_ended(
    alloc: Global,
    value: i128,
    stmts: Items,
    switch: Switch,
    around: Around,
    end: ListEnd,
) -> Result<BodyStep, AllocError>
    ensures { IfOk result (λ r. (k : StmtTrees → Step) (t : Token) → body_step_view r k t ≡ in_case_by (end_class end) t value (items_view stmts) (switch_view switch (around_view around k))) }
{
    match switch.with(Some(value), stmts.into_stmts()) {
        Ok(switch) => next_clause(alloc, switch, around, end),
        Err(error) => Err(error),
    }
}

/// A token that ends the statements of a list or of a clause.
#[tactic(auto, using(crate::proofs::Following::following))]
pub(crate) fn list_end_step(
    alloc: Global,
    around: Around,
    end: ListEnd,
) -> Result<BodyStep, AllocError>
    ensures { IfOk result (λ r. (k : StmtTrees → Step) (t : Token) → body_step_view r k t ≡ list_ended_view (end_class end) t around k) }
{
    let (body, mut frames) = around.into_parts();
    match frames.pop() {
        None => match end {
            ListEnd::Brace => Ok(BodyStep::Done(body.into_stmts())),
            ListEnd::Case | ListEnd::Default => Ok(BodyStep::Stuck),
        },
        Some(frame) => frame.end_step(alloc, Around { body, frames }, end),
    }
}
