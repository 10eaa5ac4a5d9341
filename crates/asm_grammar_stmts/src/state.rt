//! What is complete so far of a statement, or what must come.

ghost use Rattle.std.specs.Prelude.{◌≡◌, IfOk};
ghost use Rattle.asm_lang.specs.Lexemes.{Lexeme as Token};
ghost use Rattle.asm_lang.specs.Trees.{StmtTrees};
ghost use Rattle.asm_lang.specs.Machine.{Step, advance, feed};
ghost use Rattle.asm_grammar_nodes.specs.Rises.{rise_view};
ghost use Rattle.asm_grammar_nodes.specs.Tall.{tall_view, tall_option};
ghost use Rattle.asm_grammar_nodes.specs.Views.{lexeme_view};
ghost use Rattle.asm_grammar_stmts.specs.Purposes.{counted_purpose};
ghost use Rattle.asm_grammar_stmts.specs.declared.state.BodyStep.TheVariants.{On};
ghost use Rattle.asm_grammar_stmts.specs.Fed.{ended_view};
ghost use Rattle.asm_grammar_stmts.specs.Views.{around_view, body_step_view, condition_view, in_switch_view, inner_view, next_view, part_after, purpose_view, switch_view};

use crate::begin::statement_step;
use crate::clauses::{
    case_step, clause_step, default_step, negative_step, subject_step, value_step,
};
use crate::ending::{after_body_step, arm_step, do_end_step, end_step};
use crate::expression::{expression_step, name_step};
use crate::finish::enter;
use crate::frame::{Frame, Switch};
use crate::frames::Around;
use crate::parts::{condition_step, ends_part, for_step, part_step, return_step, target_step};
use asm_grammar_exprs::ExprReading;
use asm_grammar_nodes::{Class, Height, Lexeme, Rise, TallExpr, TallStmt, TallStmts, Word};
use std::alloc::{AllocError, Global};

/// A part of the head of a for statement, after the parts before it.
pub(crate) enum ForPart {
    First,
    Condition(Option<TallExpr>),
    Step(Option<TallExpr>, Option<TallExpr>),
}

/// By hand, here and below, so that the end of a value is one call wherever it is let go.
impl Drop for ForPart {
    fn drop(self) {
        match self {
            ForPart::First => {}
            ForPart::Condition(_) => {}
            ForPart::Step(_, _) => {}
        }
    }
}

impl ForPart {
    /// The part has ended, by the token.
    pub(crate) fn ended(
        self,
        at: u64,
        value: Option<TallExpr>,
        around: Around,
    ) -> Result<BodyStep, AllocError>
        ensures { IfOk result (λ r. (k : StmtTrees → Step) (t : Token) → body_step_view r k t ≡ part_after at self (around_view around k) (tall_option value)) }
    {
        match self {
            ForPart::First => Ok(on(State::Part(at, ForPart::Condition(value)), around)),
            ForPart::Condition(first) => {
                Ok(on(State::Part(at, ForPart::Step(first, value)), around))
            }
            ForPart::Step(first, condition) => {
                enter(Frame::ForBody(at, first, condition, value), around)
            }
        }
    }
}

/// What an expression in parentheses is for. The place is that of the statement.
pub(crate) enum Condition {
    If(u64),
    While(u64),
    /// After the body of a do statement.
    Do(u64, TallStmt),
    Switch(u64),
}

impl Drop for Condition {
    fn drop(self) {
        match self {
            Condition::If(_) => {}
            Condition::While(_) => {}
            Condition::Do(_, _) => {}
            Condition::Switch(_) => {}
        }
    }
}

impl Condition {
    /// The `)` after the condition was taken.
    fn closed(self, alloc: Global, expr: TallExpr, around: Around) -> Result<BodyStep, AllocError>
        ensures { IfOk result (λ r. (k : StmtTrees → Step) (t : Token) → body_step_view r k t ≡ condition_view self (around_view around k) (tall_view expr)) }
    {
        match self {
            Condition::If(at) => enter(Frame::Arm(at, expr), around),
            Condition::While(at) => enter(Frame::WhileBody(at, expr), around),
            Condition::Do(at, body) => match TallStmt::do_loop(alloc, at, body, expr) {
                Ok(whole) => Ok(on(State::DoEnd(whole), around)),
                Err(error) => Err(error),
            },
            Condition::Switch(at) => Ok(on(State::SwitchBrace(at, expr), around)),
        }
    }
}

/// What an expression is for. The place is that of the statement.
pub(crate) enum Purpose {
    Plain(u64),
    Returned(u64),
    Condition(Condition),
    For(u64, ForPart),
}

impl Drop for Purpose {
    fn drop(self) {
        match self {
            Purpose::Plain(_) => {}
            Purpose::Returned(_) => {}
            Purpose::Condition(_) => {}
            Purpose::For(_, _) => {}
        }
    }
}

impl Purpose {
    /// Of such an expression, where `outer` is that of its statement.
    pub(crate) fn rise(&self, outer: Rise) -> Rise
        ensures { rise_view result ≡ counted_purpose self.now (rise_view outer) }
    {
        match self {
            Purpose::Plain(_) => outer.after(Rise::one_more(Height::none())),
            Purpose::Returned(_) => outer.after(Rise::one_more(Height::none())),
            Purpose::Condition(_) => Rise::level(),
            Purpose::For(_, _) => Rise::level(),
        }
    }

    /// A token after an expression that has ended.
    pub(crate) fn ended(
        self,
        alloc: Global,
        expr: TallExpr,
        around: Around,
        token: &Lexeme<'_>,
    ) -> Result<BodyStep, AllocError>
        ensures { IfOk result (λ r. (k : StmtTrees → Step) → body_step_view r k (lexeme_view token.now) ≡ feed (purpose_view self (around_view around k) (tall_view expr)) (lexeme_view token.now)) }
    {
        match self {
            Purpose::Plain(at) => end_step(alloc, TallStmt::plain(at, expr), around, token),
            Purpose::Returned(at) => {
                end_step(alloc, TallStmt::returns(at, Some(expr)), around, token)
            }
            Purpose::For(at, part) => {
                if ends_part(&part, token) {
                    part.ended(at, Some(expr), around)
                } else {
                    Ok(BodyStep::Stuck)
                }
            }
            Purpose::Condition(condition) => match token.class {
                Class::CloseParen => condition.closed(alloc, expr, around),
                _ => Ok(BodyStep::Stuck),
            },
        }
    }
}

/// A statement that leaves others.
#[derive(Clone, Copy)]
pub(crate) enum Jump {
    Break,
    Continue,
}

/// What must come within the braces of a switch.
pub(crate) enum SwitchPart {
    /// A clause, or the end.
    Clause,
    /// The value of a case.
    Value,
    /// The value of a case after its minus sign.
    Negative(Word),
    /// The `:` after the value of a case.
    CaseColon(i128),
    /// The `:` after `default`.
    DefaultColon,
}

impl Drop for SwitchPart {
    fn drop(self) {
        match self {
            SwitchPart::Clause => {}
            SwitchPart::Value => {}
            SwitchPart::Negative(_) => {}
            SwitchPart::CaseColon(_) => {}
            SwitchPart::DefaultColon => {}
        }
    }
}

impl SwitchPart {
    /// What one token makes of it.
    fn step(
        self,
        alloc: Global,
        switch: Switch,
        around: Around,
        token: &Lexeme<'_>,
    ) -> Result<BodyStep, AllocError>
        ensures { IfOk result (λ r. (k : StmtTrees → Step) → body_step_view r k (lexeme_view token.now) ≡ advance (in_switch_view self (switch_view switch (around_view around k))) (lexeme_view token.now)) }
    {
        match self {
            SwitchPart::Clause => clause_step(alloc, switch, around, token),
            SwitchPart::Value => value_step(alloc, switch, around, token),
            SwitchPart::Negative(_) => negative_step(switch, around, token),
            SwitchPart::CaseColon(value) => case_step(alloc, value, switch, around, token),
            SwitchPart::DefaultColon => default_step(alloc, switch, around, token),
        }
    }
}

/// What is complete so far of the innermost statement, or what must come.
pub(crate) enum State {
    /// A statement; in a list also the end of the list.
    Statement,
    /// After a name that begins a statement.
    Name(Word),
    Expression(ExprReading, Purpose),
    /// The `(` before a condition.
    Condition(Condition),
    /// The `(` of a for statement.
    ForParen(u64),
    /// An expression that may be left out.
    Part(u64, ForPart),
    Return(u64),
    /// After `break` or `continue`.
    Target(Jump, u64),
    /// The `;` of a statement, which may be missing.
    End(TallStmt),
    /// The `;` of a do statement.
    DoEnd(TallStmt),
    /// After the first arm of an `if`.
    AfterArm(u64, TallExpr, TallStmt),
    /// The `while` after the body of a do statement.
    AfterBody(u64, TallStmt),
    /// The `{` of a switch.
    SwitchBrace(u64, TallExpr),
    /// A part of a switch within its braces.
    InSwitch(SwitchPart, Switch),
}

impl Drop for State {
    fn drop(self) {
        match self {
            State::Statement => {}
            State::Name(_) => {}
            State::Expression(expr, _) => let_go(expr),
            State::Condition(_) => {}
            State::ForParen(_) => {}
            State::Part(_, _) => {}
            State::Return(_) => {}
            State::Target(_, _) => {}
            State::End(_) => {}
            State::DoEnd(_) => {}
            State::AfterArm(_, _, _) => {}
            State::AfterBody(_, _) => {}
            State::SwitchBrace(_, _) => {}
            State::InSwitch(_, _) => {}
        }
    }
}

impl State {
    /// A token after the expression, which has ended.
    pub(crate) fn expression_ended(
        self,
        alloc: Global,
        expr: TallExpr,
        around: Around,
        token: &Lexeme<'_>,
    ) -> Result<BodyStep, AllocError>
        ensures { IfOk result (λ r. (k : StmtTrees → Step) → body_step_view r k (lexeme_view token.now) ≡ ended_view self (tall_view expr) (around_view around k) (lexeme_view token.now)) }
    {
        match self {
            State::Expression(reading, purpose) => {
                let_go(reading);
                purpose.ended(alloc, expr, around, token)
            }
            _ => Ok(BodyStep::Stuck),
        }
    }

    /// What one token makes of it.
    pub(crate) fn step(
        self,
        alloc: Global,
        around: Around,
        token: &Lexeme<'_>,
    ) -> Result<BodyStep, AllocError>
        ensures { IfOk result (λ r. (k : StmtTrees → Step) → body_step_view r k (lexeme_view token.now) ≡ advance (inner_view self (next_view around k) (around_view around k)) (lexeme_view token.now)) }
    {
        match self {
            State::Statement => statement_step(alloc, around, token),
            State::Name(name) => name_step(alloc, name, around, token),
            State::Expression(reading, purpose) => {
                expression_step(alloc, reading, purpose, around, token)
            }
            State::Condition(condition) => condition_step(alloc, condition, around, token),
            State::ForParen(at) => for_step(at, around, token),
            State::Part(at, part) => part_step(alloc, at, part, around, token),
            State::Return(at) => return_step(alloc, at, around, token),
            State::Target(jump, at) => target_step(alloc, jump, at, around, token),
            State::End(stmt) => end_step(alloc, stmt, around, token),
            State::DoEnd(stmt) => do_end_step(alloc, stmt, around, token),
            State::AfterArm(at, condition, first) => {
                arm_step(alloc, at, condition, first, around, token)
            }
            State::AfterBody(at, body) => after_body_step(at, body, around, token),
            State::SwitchBrace(at, subject) => subject_step(alloc, at, subject, around, token),
            State::InSwitch(part, switch) => part.step(alloc, switch, around, token),
        }
    }
}

/// The statements of a function's body, up to its `}`.
#[derive(Drop)]
pub struct BodyReading {
    pub(crate) state: State,
    pub(crate) around: Around,
}

/// What one token does to the reading of a body.
#[derive(Drop)]
pub enum BodyStep {
    /// The token is taken.
    On(BodyReading),
    /// The `}` that ends the body was taken.
    Done(TallStmts),
    /// The token can't come here.
    Stuck,
}

/// What one token did to the reading of a body, in place.
#[derive(Drop)]
pub enum BodyFed {
    /// The token is taken.
    On,
    /// The `}` that ends the body was taken, and its statements are taken out.
    Done(TallStmts),
    /// The token can't come here.
    Stuck,
}

/// Lets a reading go by a call. Dropped in place, it is a case for each of its forms, in the proof too.
pub(crate) fn let_go(_expr: ExprReading) {}

/// The token is taken, and leads here.
pub(crate) fn on(state: State, around: Around) -> BodyStep
    ensures { result ≡ On (record { state = state; around = around }) }
{
    BodyStep::On(BodyReading { state, around })
}
