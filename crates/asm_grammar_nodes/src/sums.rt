//! Chains of `+` and `-`, which are held flat.

ghost use Rattle.std.specs.Prelude.{◌≡◌, [], ◌∷◌, ◌++◌, IfOk};
ghost use Rattle.sem_words.specs.Lists.{list_items};
ghost use Rattle.asm_lang.specs.Trees.{binary};
ghost use Rattle.asm_lang.specs.Modules.{is_sum, expr_of};
ghost use Rattle.asm_grammar_nodes.specs.Heights.{is_chain};
ghost use Rattle.asm_grammar_nodes.specs.Views.{expr_view, sign_of};

use crate::tree::{Addend, ExprTree};
use sem_words::{JsOp, List};
use std::alloc::{AllocError, Global};

/// Whether the operator makes chains.
pub fn is_sum(operator: JsOp) -> bool
    ensures { result ≡ is_sum operator }
{
    match operator {
        JsOp::Add | JsOp::Sub => true,
        _ => false,
    }
}

/// Whether a further `+` or `-` goes on with the node.
#[tactic(auto, using(crate::proofs::Levels::chains))]
pub fn is_chain(tree: &ExprTree) -> bool
    ensures { result ≡ is_chain (expr_of (expr_view tree.now)) }
{
    match tree {
        ExprTree::Binary(_, _, operator, _) => is_sum(*operator),
        ExprTree::Sum(first, others) => {
            if others.is_empty() {
                is_chain(first)
            } else {
                true
            }
        }
        ExprTree::Literal(..)
        | ExprTree::Negative(..)
        | ExprTree::Decimals(..)
        | ExprTree::Variable(..)
        | ExprTree::Element(..)
        | ExprTree::Call(..)
        | ExprTree::TableCall(..)
        | ExprTree::Assignment(..)
        | ExprTree::Store(..)
        | ExprTree::Unary(..)
        | ExprTree::Conditional(..)
        | ExprTree::Listed(..) => false,
    }
}

/// The node of two operands.
pub(crate) fn binary_tree(
    alloc: Global,
    at: u64,
    left: Box<ExprTree>,
    operator: JsOp,
    right: Box<ExprTree>,
) -> Result<ExprTree, AllocError>
    ensures { IfOk result (λ r. expr_view r ≡ binary at (expr_view left.value) operator (expr_view right.value)) }
{
    match operator {
        JsOp::Add => sum(alloc, at, left, false, right),
        JsOp::Sub => sum(alloc, at, left, true, right),
        _ => Ok(no_sum(at, left, operator, right)),
    }
}

fn sum(
    alloc: Global,
    at: u64,
    left: Box<ExprTree>,
    minus: bool,
    right: Box<ExprTree>,
) -> Result<ExprTree, AllocError>
    ensures { IfOk result (λ r. expr_view r ≡ binary at (expr_view left.value) (sign_of minus) (expr_view right.value)) }
{
    let left = Box::into_inner(left);
    left.plus(alloc, at, minus, Box::into_inner(right))
}

#[tactic(auto, using(crate::proofs::Views::views))]
fn no_sum(at: u64, left: Box<ExprTree>, operator: JsOp, right: Box<ExprTree>) -> ExprTree
    ensures { expr_view result ≡ binary at (expr_view left.value) operator (expr_view right.value) }
{
    ExprTree::Binary(at, left, operator, right)
}

/// The list with one more at its end.
pub(crate) fn with_addend(
    others: List<Addend>,
    at: u64,
    minus: bool,
    operand: ExprTree,
) -> Result<List<Addend>, AllocError>
    ensures { IfOk result (λ r. list_items r ≡ list_items others ++ (record { at = at; minus = minus; operand = operand }) ∷ []) }
{
    let mut others = others;
    let addend = Addend { at, minus, operand };
    match others.push(addend) {
        Ok(()) => Ok(others),
        Err(_) => Err(AllocError),
    }
}
