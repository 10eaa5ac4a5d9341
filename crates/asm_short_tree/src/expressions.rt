//! Expressions with new names.

ghost use Rattle.std.specs.Prelude.{◌≡◌, IfOk};
ghost use Rattle.sem_words.specs.Lists.{list_items};
ghost use Rattle.asm_tree.specs.Views.{expr_view, exprs_view, links_view, expr_option};
ghost use Rattle.asm_short_lang.specs.Renaming.{expr_with, exprs_with, links_with, option_with};
ghost use Rattle.asm_short_tree.specs.Looking.{look_by};

use crate::lists::pushed;
use crate::look::Look;
use crate::nodes::{assignment, boxed, call, decimal, element, store, table_call, variable};
use asm_tree::{Expr, Link};
use sem_words::List;
use std::alloc::{AllocError, Global};

/// The expression with new names.
///
/// A tree may be 1,000 high, so what inner expressions needn't wait for is made elsewhere, and a level takes little of the
/// machine's stack.
#[cycle(renaming)]
#[inline(never)]
#[tactic(auto, using(asm_tree::proofs::Views::views))]
pub(crate) fn renamed_expr(
    alloc: Global,
    look: &Look<'_, '_>,
    expr: &Expr,
) -> Result<Expr, AllocError>
    ensures { IfOk result (λ r. expr_view r ≡ expr_with (look_by look.now) (expr_view expr.now)) }
{
    match expr {
        Expr::Lit(value) => Ok(Expr::Lit(*value)),
        Expr::Decimal(text) => decimal(alloc, text),
        Expr::Var(name) => variable(alloc, look, name),
        Expr::Index(name, index) => {
            let index = renamed_box(alloc, look, index)?;
            element(alloc, look, name, index)
        }
        Expr::Call(name, arguments) => {
            let arguments = renamed_exprs(alloc, look, arguments.as_slice())?;
            call(alloc, look, name, arguments)
        }
        Expr::TableCall(name, index, arguments) => {
            let index = renamed_box(alloc, look, index)?;
            let arguments = renamed_exprs(alloc, look, arguments.as_slice())?;
            table_call(alloc, look, name, index, arguments)
        }
        Expr::Assign(name, value) => {
            let value = renamed_box(alloc, look, value)?;
            assignment(alloc, look, name, value)
        }
        Expr::Store(name, index, value) => {
            let index = renamed_box(alloc, look, index)?;
            let value = renamed_box(alloc, look, value)?;
            store(alloc, look, name, index, value)
        }
        Expr::Unary(operator, operand) => {
            let operand = renamed_box(alloc, look, operand)?;
            Ok(Expr::Unary(*operator, operand))
        }
        Expr::Binary(operator, left, right) => {
            let left = renamed_box(alloc, look, left)?;
            let right = renamed_box(alloc, look, right)?;
            Ok(Expr::Binary(*operator, left, right))
        }
        Expr::Chain(first, links) => {
            let first = renamed_box(alloc, look, first)?;
            let links = renamed_links(alloc, look, links.as_slice())?;
            Ok(Expr::Chain(first, links))
        }
        Expr::Cond(condition, yes, no) => {
            let condition = renamed_box(alloc, look, condition)?;
            let yes = renamed_box(alloc, look, yes)?;
            let no = renamed_box(alloc, look, no)?;
            Ok(Expr::Cond(condition, yes, no))
        }
        Expr::Comma(parts) => {
            let parts = renamed_exprs(alloc, look, parts.as_slice())?;
            Ok(Expr::Comma(parts))
        }
    }
}

#[cycle(renaming)]
#[inline(never)]
fn renamed_box(alloc: Global, look: &Look<'_, '_>, expr: &Expr) -> Result<Box<Expr>, AllocError>
    ensures { IfOk result (λ r. expr_view r.value ≡ expr_with (look_by look.now) (expr_view expr.now)) }
{
    let expr = renamed_expr(alloc, look, expr)?;
    boxed(alloc, expr)
}

#[cycle(renaming)]
#[inline(never)]
fn renamed_exprs(
    alloc: Global,
    look: &Look<'_, '_>,
    exprs: &[Expr],
) -> Result<List<Expr>, AllocError>
    ensures { IfOk result (λ r. exprs_view (list_items r) ≡ exprs_with (look_by look.now) (exprs_view exprs.now)) }
{
    let empty = List::with_capacity(alloc, exprs.len())?;
    let mut list = empty;
    for expr in exprs {
        let expr = renamed_expr(alloc, look, expr)?;
        list = pushed(list, expr)?;
    }
    Ok(list)
}

#[cycle(renaming)]
#[inline(never)]
fn renamed_links(
    alloc: Global,
    look: &Look<'_, '_>,
    links: &[Link],
) -> Result<List<Link>, AllocError>
    ensures { IfOk result (λ r. links_view (list_items r) ≡ links_with (look_by look.now) (links_view links.now)) }
{
    let empty = List::with_capacity(alloc, links.len())?;
    let mut list = empty;
    for link in links {
        let minus = link.minus;
        let operand = renamed_expr(alloc, look, &link.operand)?;
        list = pushed(list, Link { minus, operand })?;
    }
    Ok(list)
}

#[tactic(auto, using(asm_tree::proofs::Views::views))]
pub(crate) fn renamed_option(
    alloc: Global,
    look: &Look<'_, '_>,
    expr: &Option<Expr>,
) -> Result<Option<Expr>, AllocError>
    ensures { IfOk result (λ r. expr_option r ≡ option_with (look_by look.now) (expr_option expr.now)) }
{
    match expr {
        None => Ok(None),
        Some(expr) => {
            let expr = renamed_expr(alloc, look, expr)?;
            Ok(Some(expr))
        }
    }
}
