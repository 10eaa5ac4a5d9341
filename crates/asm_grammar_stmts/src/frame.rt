//! What is open round a statement.

ghost use Rattle.std.specs.Prelude.{◌≡◌, IfOk, IfErr};
ghost use Rattle.asm_lang.specs.Lexemes.{Lexeme as Token};
ghost use Rattle.asm_lang.specs.Trees.{StmtTree, StmtTrees, switches};
ghost use Rattle.asm_lang.specs.Machine.{State, Step};
ghost use Rattle.asm_lang.specs.TreeHeights.{part_height};
ghost use Rattle.asm_grammar_nodes.specs.Heights.{counted};
ghost use Rattle.asm_grammar_nodes.specs.Views.{more_clauses};
ghost use Rattle.asm_grammar_nodes.specs.Tall.{tall_view, tall_option, stmt_tall_view, stmts_tall_view, clauses_tall_view};
ghost use Rattle.asm_grammar_stmts.specs.Classes.{end_class};
ghost use Rattle.asm_grammar_stmts.specs.declared.frame.Frame.TheVariants.{Labels};
ghost use Rattle.asm_grammar_stmts.specs.Reach.{reach_view, counted_reach};
ghost use Rattle.asm_grammar_stmts.specs.Views.{around_view, body_step_view, frame_ended, frame_view, enclosed_view};

use crate::classes::ListEnd;
use crate::clauses::{case_ended, list_ended};
use crate::frames::Around;
use crate::items::Items;
use crate::reach::Reach;
use crate::state::BodyStep;
use asm_grammar_nodes::{Height, TallClauses, TallExpr, TallStmt, TallStmts, Word};
use sem_words::List;
use std::alloc::{AllocError, Global};

/// A switch: its place, its subject, and its clauses so far.
pub(crate) struct Switch {
    pub(crate) at: u64,
    pub(crate) subject: TallExpr,
    pub(crate) clauses: TallClauses,
}

/// By hand, as that of a frame, so that the end is one call wherever it is let go.
impl Drop for Switch {
    fn drop(self) {
        let Switch {
            at: _,
            subject: _,
            clauses: _,
        } = self;
    }
}

impl Switch {
    /// The switch with a further clause at its end.
    pub(crate) fn with(self, value: Option<i128>, body: TallStmts) -> Result<Switch, AllocError>
        ensures clauses { IfOk result (λ r. clauses_tall_view r.clauses ≡ more_clauses (clauses_tall_view self.clauses) value (stmts_tall_view body)) }
        ensures at { IfOk result (λ r. r.at ≡ self.at) }
        ensures subject { IfOk result (λ r. r.subject ≡ self.subject) }
    {
        let Switch {
            at,
            subject,
            clauses,
        } = self;
        match clauses.with(value, body) {
            Ok(clauses) => Ok(Switch {
                at,
                subject,
                clauses,
            }),
            Err(error) => Err(error),
        }
    }

    /// The statement.
    pub(crate) fn stmt(self) -> TallStmt
        ensures { stmt_tall_view result ≡ switches self.at (tall_view self.subject) (clauses_tall_view self.clauses) }
    {
        let Switch {
            at,
            subject,
            clauses,
        } = self;
        TallStmt::switch(at, subject, clauses)
    }
}

/// What statements up to a `}` are.
#[derive(Drop)]
pub(crate) enum Listing {
    /// A block; the place of its `{`.
    Block(u64),
    /// The default clause of a switch, which is its last one.
    Default(Switch),
}

/// What is open round a statement.
pub(crate) enum Frame {
    /// The statements of a list so far.
    Item(Items, Listing),
    /// The statements of a case so far, after its value.
    CaseItem(i128, Items, Switch),
    /// The first arm of an `if`.
    Arm(u64, TallExpr),
    /// The arm of an `if` after its `else`.
    OtherArm(u64, TallExpr, TallStmt),
    WhileBody(u64, TallExpr),
    DoBody(u64),
    ForBody(u64, Option<TallExpr>, Option<TallExpr>, Option<TallExpr>),
    /// All labels in a row before the statement.
    Labels(List<Word>),
}

impl Drop for Frame {
    fn drop(self) {
        match self {
            Frame::Item(_, _) => {}
            Frame::CaseItem(_, _, _) => {}
            Frame::Arm(_, _) => {}
            Frame::OtherArm(_, _, _) => {}
            Frame::WhileBody(_, _) => {}
            Frame::DoBody(_) => {}
            Frame::ForBody(_, _, _, _) => {}
            Frame::Labels(_) => {}
        }
    }
}

/// What a complete statement makes of the frame round it.
#[derive(Drop)]
pub(crate) enum Enclosed {
    /// The frame is complete with it, and is a statement.
    Stmt(TallStmt),
    /// The frame goes on with a further statement, or ends.
    Item(Frame),
    /// An `else` may follow.
    Arm(u64, TallExpr, TallStmt),
    /// The `while` of a do statement follows.
    Body(u64, TallStmt),
}

impl Frame {
    /// The frame with the statement in it.
    #[tactic(auto, using(crate::proofs::Following::following))]
    pub(crate) fn around(self, alloc: Global, stmt: TallStmt) -> Result<Enclosed, AllocError>
        ensures { IfOk result (λ r. (k : StmtTree → State) → enclosed_view r k ≡ frame_view self k (stmt_tall_view stmt)) }
    {
        match self {
            Frame::Item(stmts, listing) => match stmts.with(stmt) {
                Ok(stmts) => Ok(Enclosed::Item(Frame::Item(stmts, listing))),
                Err(error) => Err(error),
            },
            Frame::CaseItem(value, stmts, switch) => match stmts.with(stmt) {
                Ok(stmts) => Ok(Enclosed::Item(Frame::CaseItem(value, stmts, switch))),
                Err(error) => Err(error),
            },
            Frame::Arm(at, condition) => Ok(Enclosed::Arm(at, condition, stmt)),
            Frame::OtherArm(at, condition, first) => {
                match TallStmt::if_else(alloc, at, condition, first, stmt) {
                    Ok(whole) => Ok(Enclosed::Stmt(whole)),
                    Err(error) => Err(error),
                }
            }
            Frame::WhileBody(at, condition) => {
                match TallStmt::while_loop(alloc, at, condition, stmt) {
                    Ok(whole) => Ok(Enclosed::Stmt(whole)),
                    Err(error) => Err(error),
                }
            }
            Frame::DoBody(at) => Ok(Enclosed::Body(at, stmt)),
            Frame::ForBody(at, first, condition, step) => {
                match TallStmt::for_loop(alloc, at, first, condition, step, stmt) {
                    Ok(whole) => Ok(Enclosed::Stmt(whole)),
                    Err(error) => Err(error),
                }
            }
            Frame::Labels(labels) => match TallStmt::labelled(alloc, labels, stmt) {
                Ok(whole) => Ok(Enclosed::Stmt(whole)),
                Err(error) => Err(error),
            },
        }
    }

    /// All labels in a row, or another frame as it is.
    pub(crate) fn into_labels(self) -> Result<List<Word>, Frame>
        ensures labels { IfOk result (λ r. self ≡ Labels r) }
        ensures other { IfErr result (λ f. f ≡ self) }
    {
        match self {
            Frame::Labels(labels) => Ok(labels),
            frame => Err(frame),
        }
    }

    /// Of a statement in the frame, where `below` is that of a statement in the frame's place.
    #[tactic(auto, using(crate::proofs::RisingStacks::labels))]
    pub(crate) fn reach(&self, below: Reach) -> Reach
        ensures { reach_view result ≡ counted_reach self.now (reach_view below) }
    {
        match self {
            Frame::Item(_, _) => Reach::in_list(),
            Frame::CaseItem(_, _, _) => Reach::in_list(),
            Frame::Arm(_, condition) => below.body(condition.height()),
            Frame::OtherArm(_, condition, first) => {
                below.body(condition.height().or(first.as_body()))
            }
            Frame::WhileBody(_, condition) => below.body(condition.height()),
            Frame::DoBody(_) => Reach::after_do(),
            Frame::ForBody(_, first, condition, step) => {
                let others = option_height(condition).or(option_height(step));
                below.body(option_height(first).or(others))
            }
            Frame::Labels(labels) => {
                if labels.is_empty() {
                    below
                } else {
                    below.under_label()
                }
            }
        }
    }

    /// A token that ends the statements in the frame.
    #[tactic(auto, using(crate::proofs::Following::following, crate::proofs::StackLemmas::no_stmt_begins))]
    pub(crate) fn end_step(
        self,
        alloc: Global,
        around: Around,
        end: ListEnd,
    ) -> Result<BodyStep, AllocError>
        ensures { IfOk result (λ r. (k : StmtTrees → Step) (t : Token) → body_step_view r k t ≡ frame_ended (end_class end) t self (around_view around k)) }
    {
        match self {
            Frame::Item(stmts, listing) => list_ended(alloc, stmts, listing, around, end),
            Frame::CaseItem(value, stmts, switch) => {
                case_ended(alloc, value, stmts, switch, around, end)
            }
            _ => Ok(BodyStep::Stuck),
        }
    }
}

/// Of an expression that may be left out: 0 for none.
fn option_height(expr: &Option<TallExpr>) -> Height
    ensures { result.count ≡ counted (part_height (tall_option expr.now)) }
{
    match expr {
        None => Height::none(),
        Some(expr) => expr.height(),
    }
}
