//! Chains of `+` and `-`.

ghost use Rattle.std.specs.Prelude.{◌≡◌, ◌++◌, ◌∷◌, [], IfOk};
ghost use Rattle.sem_words.specs.Lists.{list_items};
ghost use Rattle.asm_lang.specs.Modules.{binary, chained, binary_of};
ghost use Rattle.asm_tree.specs.Views.{expr_view};

use asm_tree::{Expr, Link};
use sem_words::{JsOp, List};
use std::alloc::{AllocError, Global};

fn with_link(links: List<Link>, minus: bool, operand: Expr) -> Result<List<Link>, AllocError>
    ensures { IfOk result (λ r. list_items r ≡ list_items links ++ (record { minus = minus; operand = operand }) ∷ []) }
{
    let mut links = links;
    match links.push(Link { minus, operand }) {
        Ok(()) => Ok(links),
        Err(_) => Err(AllocError),
    }
}

/// A chain goes on, and any other expression begins one.
#[inline(never)]
#[tactic(auto, using(crate::proofs::ChainLemmas::chains))]
pub(crate) fn chained(
    alloc: Global,
    left: Expr,
    minus: bool,
    right: Expr,
) -> Result<Expr, AllocError>
    ensures { IfOk result (λ r. expr_view r ≡ chained (expr_view left) minus (expr_view right)) }
{
    match left.into_chain() {
        Ok((first, links)) => {
            let links = with_link(links, minus, right)?;
            Ok(Expr::Chain(first, links))
        }
        Err(left) => {
            let links = with_link(List::with_capacity(alloc, 1)?, minus, right)?;
            let left = Box::new(alloc, left)?;
            Ok(Expr::Chain(left, links))
        }
    }
}

/// The node of two operands.
#[inline(never)]
#[tactic(auto, using(crate::proofs::ChainLemmas::chains))]
pub(crate) fn binary(
    alloc: Global,
    operator: JsOp,
    left: Box<Expr>,
    right: Box<Expr>,
) -> Result<Expr, AllocError>
    ensures { IfOk result (λ r. expr_view r ≡ binary_of operator (expr_view left.value) (expr_view right.value)) }
{
    match operator {
        JsOp::Add => chained(alloc, Box::into_inner(left), false, Box::into_inner(right)),
        JsOp::Sub => chained(alloc, Box::into_inner(left), true, Box::into_inner(right)),
        _ => Ok(no_chain(operator, left, right)),
    }
}

#[tactic(auto, using(crate::proofs::ChainLemmas::chains))]
fn no_chain(operator: JsOp, left: Box<Expr>, right: Box<Expr>) -> Expr
    ensures { expr_view result ≡ binary operator (expr_view left.value) (expr_view right.value) }
{
    Expr::Binary(operator, left, right)
}
