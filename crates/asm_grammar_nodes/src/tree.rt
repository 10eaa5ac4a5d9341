//! Trees of asm.js in which each node has the offset of the token that stands for it.

ghost use Rattle.std.specs.Prelude.{◌≡◌, ◌<◌, IfOk, IfSome};
ghost use Rattle.asm_grammar_nodes.specs.declared.tree.StmtTree.{size-StmtTree};
ghost use Rattle.asm_lang.specs.Trees.{binary};
ghost use Rattle.asm_grammar_nodes.specs.Views.{expr_view, sign_of};

use crate::lexeme::Word;
use crate::sums::with_addend;
use sem_words::{JsOp, JsUnary, List, Text};
use std::alloc::{AllocError, Global};

/// An expression. The first part of a node is its place.
#[cycle(exprs)]
pub enum ExprTree {
    Literal(u64, u64),
    /// A literal with a minus sign, and its number without it.
    Negative(u64, u64),
    Decimals(u64, Text),
    Variable(u64, Text),
    Element(u64, Text, Box<ExprTree>),
    Call(u64, Text, List<ExprTree>),
    TableCall(u64, Text, Box<ExprTree>, List<ExprTree>),
    Assignment(u64, Text, Box<ExprTree>),
    Store(u64, Text, Box<ExprTree>, Box<ExprTree>),
    Unary(u64, JsUnary, Box<ExprTree>),
    Binary(u64, Box<ExprTree>, JsOp, Box<ExprTree>),
    /// A first operand, and further ones with `+` or `-` before them.
    Sum(Box<ExprTree>, List<Addend>),
    Conditional(u64, Box<ExprTree>, Box<ExprTree>, Box<ExprTree>),
    /// By commas.
    Listed(u64, List<ExprTree>),
}

/// By hand, so that the end of an expression is one call wherever it is let go.
impl Drop for ExprTree {
    #[cycle(exprs)]
    fn drop(self) {
        match self {
            ExprTree::Literal(_, _) => {}
            ExprTree::Negative(_, _) => {}
            ExprTree::Decimals(_, _) => {}
            ExprTree::Variable(_, _) => {}
            ExprTree::Element(_, _, _) => {}
            ExprTree::Call(_, _, _) => {}
            ExprTree::TableCall(_, _, _, _) => {}
            ExprTree::Assignment(_, _, _) => {}
            ExprTree::Store(_, _, _, _) => {}
            ExprTree::Unary(_, _, _) => {}
            ExprTree::Binary(_, _, _, _) => {}
            ExprTree::Sum(_, _) => {}
            ExprTree::Conditional(_, _, _, _) => {}
            ExprTree::Listed(_, _) => {}
        }
    }
}

impl ExprTree {
    /// The sum of the two: a further operand of a sum is put at its end.
    #[tactic(auto, using(crate::proofs::Views::views))]
    pub(crate) fn plus(
        self,
        alloc: Global,
        at: u64,
        minus: bool,
        right: ExprTree,
    ) -> Result<ExprTree, AllocError>
        ensures { IfOk result (λ r. expr_view r ≡ binary at (expr_view self) (sign_of minus) (expr_view right)) }
    {
        match self {
            ExprTree::Sum(first, others) => {
                let others = with_addend(others, at, minus, right)?;
                Ok(ExprTree::Sum(first, others))
            }
            first => {
                let others = with_addend(List::new(alloc), at, minus, right)?;
                Ok(ExprTree::Sum(Box::new(alloc, first)?, others))
            }
        }
    }
}

/// A further operand of a sum, with the place of the sign before it.
#[derive(Drop)]
#[cycle(exprs)]
pub struct Addend {
    pub at: u64,
    pub minus: bool,
    pub operand: ExprTree,
}

/// A statement. The first part of a node is its place. Expressions stand in boxes, so that a list of statements is small.
#[cycle(stmts)]
pub enum StmtTree {
    Block(u64, List<StmtTree>),
    Plain(u64, Box<ExprTree>),
    Empty(u64),
    If(u64, Box<ExprTree>, Box<StmtTree>, Option<Box<StmtTree>>),
    Return(u64, Option<Box<ExprTree>>),
    While(u64, Box<ExprTree>, Box<StmtTree>),
    DoWhile(u64, Box<StmtTree>, Box<ExprTree>),
    For(u64, Box<ForHeadTree>, Box<StmtTree>),
    Break(u64, Option<Text>),
    Continue(u64, Option<Text>),
    /// A statement under labels, in text order.
    Labelled(List<Word>, Box<StmtTree>),
    Switch(u64, Box<ExprTree>, List<ClauseTree>),
}

impl StmtTree {
    /// The last statement inside it. All else of it is let go.
    #[cycle(stmts)]
    fn last_inside(self) -> Option<Box<StmtTree>>
        ensures { IfSome result (λ inner. size-StmtTree inner.value < size-StmtTree self) }
    {
        match self {
            StmtTree::If(_, _, first, second) => match second {
                None => Some(first),
                Some(second) => Some(second),
            },
            StmtTree::While(_, _, body) => Some(body),
            StmtTree::DoWhile(_, body, _) => Some(body),
            StmtTree::For(_, _, body) => Some(body),
            StmtTree::Labelled(_, body) => Some(body),
            StmtTree::Block(_, _)
            | StmtTree::Plain(_, _)
            | StmtTree::Empty(_)
            | StmtTree::Return(_, _)
            | StmtTree::Break(_, _)
            | StmtTree::Continue(_, _)
            | StmtTree::Switch(_, _, _) => None,
        }
    }
}

/// By hand: the last statement inside another is let go in a loop, and not by a call for each level, since a `;` can complete
/// a tree of any height.
impl Drop for StmtTree {
    #[cycle(stmts)]
    fn drop(self) {
        let mut rest = self.last_inside();
        while let Some(inner) = rest {
            rest = Box::into_inner(inner).last_inside();
        }
    }
}

/// What stands in the parentheses of a `for`. In a box of its own, so that no other statement is as large.
#[derive(Drop)]
pub struct ForHeadTree {
    pub start: Option<Box<ExprTree>>,
    pub condition: Option<Box<ExprTree>>,
    pub step: Option<Box<ExprTree>>,
}

/// A clause of a switch: a case with its value, or the default.
#[derive(Drop)]
#[cycle(stmts)]
pub struct ClauseTree {
    pub value: Option<i128>,
    pub body: List<StmtTree>,
}
