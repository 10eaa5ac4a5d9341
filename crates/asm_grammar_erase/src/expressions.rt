//! From an expression with places to the expression that it says.

ghost use Rattle.std.specs.Prelude.{◌≡◌, map, IfOk};
ghost use Rattle.sem_words.specs.Lists.{list_items};
ghost use Rattle.asm_lang.specs.Modules.{expr_of, exprs_of, option_of};
ghost use Rattle.asm_grammar_nodes.specs.Views as placed;
ghost use Rattle.asm_tree.specs.Views as plain;
ghost use Rattle.asm_grammar_erase.specs.Parts.{links_on};

use crate::chains::{binary, chained};
use crate::lists::pushed;
use crate::nodes::{assignment, boxed, call, decimal, element, store, table_call, variable};
use asm_grammar_nodes::{Addend, ExprTree};
use asm_tree::Expr;
use sem_words::List;
use std::alloc::{AllocError, Global};

/// The expression, without places.
///
/// A tree may be 1,000 high, so what inner expressions needn't wait for is made elsewhere, and a level takes little of the
/// machine's stack.
#[cycle(erasing)]
#[inline(never)]
#[tactic(auto, using(crate::proofs::Erasing::expressions))]
pub(crate) fn erased_expr(alloc: Global, tree: &ExprTree) -> Result<Expr, AllocError>
    ensures { IfOk result (λ r. plain.expr_view r ≡ expr_of (placed.expr_view tree.now)) }
{
    match tree {
        ExprTree::Literal(_, value) => Ok(Expr::Lit(*value as i128)),
        ExprTree::Negative(_, value) => Ok(Expr::Lit(-(*value as i128))),
        ExprTree::Decimals(_, text) => decimal(alloc, text),
        ExprTree::Variable(_, name) => variable(alloc, name),
        ExprTree::Element(_, name, index) => {
            let index = erased_box(alloc, index)?;
            element(alloc, name, index)
        }
        ExprTree::Call(_, name, arguments) => {
            let arguments = erased_exprs(alloc, arguments.as_slice())?;
            call(alloc, name, arguments)
        }
        ExprTree::TableCall(_, name, index, arguments) => {
            let index = erased_box(alloc, index)?;
            let arguments = erased_exprs(alloc, arguments.as_slice())?;
            table_call(alloc, name, index, arguments)
        }
        ExprTree::Assignment(_, name, value) => {
            let value = erased_box(alloc, value)?;
            assignment(alloc, name, value)
        }
        ExprTree::Store(_, name, index, value) => {
            let index = erased_box(alloc, index)?;
            let value = erased_box(alloc, value)?;
            store(alloc, name, index, value)
        }
        ExprTree::Unary(_, operator, operand) => {
            let operand = erased_box(alloc, operand)?;
            Ok(Expr::Unary(*operator, operand))
        }
        ExprTree::Binary(_, left, operator, right) => {
            let left = erased_box(alloc, left)?;
            let right = erased_box(alloc, right)?;
            binary(alloc, *operator, left, right)
        }
        ExprTree::Sum(first, others) => {
            let first = erased_box(alloc, first)?;
            erased_sum(alloc, others.as_slice(), first)
        }
        ExprTree::Conditional(_, condition, first, second) => {
            let condition = erased_box(alloc, condition)?;
            let first = erased_box(alloc, first)?;
            let second = erased_box(alloc, second)?;
            Ok(Expr::Cond(condition, first, second))
        }
        ExprTree::Listed(_, parts) => {
            let parts = erased_exprs(alloc, parts.as_slice())?;
            Ok(Expr::Comma(parts))
        }
    }
}

#[cycle(erasing)]
#[inline(never)]
fn erased_box(alloc: Global, tree: &ExprTree) -> Result<Box<Expr>, AllocError>
    ensures { IfOk result (λ r. plain.expr_view r.value ≡ expr_of (placed.expr_view tree.now)) }
{
    let expr = erased_expr(alloc, tree)?;
    boxed(alloc, expr)
}

#[cycle(erasing)]
#[inline(never)]
fn erased_exprs(alloc: Global, trees: &[ExprTree]) -> Result<List<Expr>, AllocError>
    ensures { IfOk result (λ r. plain.exprs_view (list_items r) ≡ exprs_of (placed.exprs_view trees.now)) }
{
    let empty = List::with_capacity(alloc, trees.len())?;
    let mut exprs = empty;
    for tree in trees {
        let expr = erased_expr(alloc, tree)?;
        exprs = pushed(exprs, expr)?;
    }
    Ok(exprs)
}

/// The further operands of a sum, after what is before them.
#[cycle(erasing)]
#[inline(never)]
fn erased_sum(alloc: Global, others: &[Addend], first: Box<Expr>) -> Result<Expr, AllocError>
    ensures { IfOk result (λ r. plain.expr_view r ≡ links_on (plain.expr_view first.value) (map placed.addend_view others.now)) }
{
    let mut sum = Box::into_inner(first);
    for addend in others {
        let operand = erased_expr(alloc, &addend.operand)?;
        sum = chained(alloc, sum, addend.minus, operand)?;
    }
    Ok(sum)
}

#[tactic(auto, using(crate::proofs::Erasing::expressions))]
pub(crate) fn erased_option(
    alloc: Global,
    tree: &Option<Box<ExprTree>>,
) -> Result<Option<Expr>, AllocError>
    ensures { IfOk result (λ r. plain.expr_option r ≡ option_of (placed.expr_option tree.now)) }
{
    match tree {
        None => Ok(None),
        Some(tree) => {
            let expr = erased_expr(alloc, tree)?;
            Ok(Some(expr))
        }
    }
}
