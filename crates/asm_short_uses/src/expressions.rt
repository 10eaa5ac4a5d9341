//! The names in expressions.

ghost use Rattle.std.specs.Prelude.{◌≡◌, [], ◌∷◌, ◌++◌, OnOk};
ghost use Rattle.asm_tree.specs.Views.{expr_view, exprs_view, links_view, expr_option};
ghost use Rattle.asm_short_lang.specs.Uses.{expr_uses, exprs_uses, links_uses, option_uses};
ghost use Rattle.asm_short_uses.specs.Views.{use_view, uses_view};

use crate::naming::Use;
use asm_tree::{Expr, Link};
use std::alloc::AllocError;

#[tactic(auto, using(crate::proofs::Added::added))]
fn add<'a>(uses: &mut Vec<Use<'a>>, more: Use<'a>) -> Result<(), AllocError>
    ensures { OnOk result (uses_view uses.new.items ≡ uses_view uses.old.items ++ use_view more.entry ∷ []) }
{
    uses.push(more)?;
    Ok(())
}

/// Adds the names of an expression, in text order.
#[cycle(expr)]
#[tactic(auto, using(asm_tree::proofs::Views::views, crate::proofs::Added::added))]
pub fn add_expr<'a>(uses: &mut Vec<Use<'a>>, expr: &'a Expr) -> Result<(), AllocError>
    ensures { OnOk result (uses_view uses.new.items ≡ uses_view uses.old.items ++ expr_uses (expr_view expr.now)) }
{
    match expr {
        Expr::Lit(_) | Expr::Decimal(_) => Ok(()),
        Expr::Var(name) => add(uses, Use::Variable(name)),
        Expr::Index(name, index) => {
            add(uses, Use::View(name))?;
            add_expr(uses, index)
        }
        Expr::Call(name, arguments) => {
            add(uses, Use::Callee(name))?;
            add_exprs(uses, arguments.as_slice())
        }
        Expr::TableCall(name, index, arguments) => {
            add(uses, Use::Table(name))?;
            add_expr(uses, index)?;
            add_exprs(uses, arguments.as_slice())
        }
        Expr::Assign(name, value) => {
            add(uses, Use::Variable(name))?;
            add_expr(uses, value)
        }
        Expr::Store(name, index, value) => {
            add(uses, Use::View(name))?;
            add_expr(uses, index)?;
            add_expr(uses, value)
        }
        Expr::Unary(_, operand) => add_expr(uses, operand),
        Expr::Binary(_, left, right) => {
            add_expr(uses, left)?;
            add_expr(uses, right)
        }
        Expr::Chain(first, links) => {
            add_expr(uses, first)?;
            add_links(uses, links.as_slice())
        }
        Expr::Cond(condition, yes, no) => {
            add_expr(uses, condition)?;
            add_expr(uses, yes)?;
            add_expr(uses, no)
        }
        Expr::Comma(parts) => add_exprs(uses, parts.as_slice()),
    }
}

#[cycle(expr)]
#[tactic(auto, using(asm_tree::proofs::Views::views, crate::proofs::Added::added))]
fn add_exprs<'a>(uses: &mut Vec<Use<'a>>, exprs: &'a [Expr]) -> Result<(), AllocError>
    ensures { OnOk result (uses_view uses.new.items ≡ uses_view uses.old.items ++ exprs_uses (exprs_view exprs.now)) }
{
    for expr in exprs {
        add_expr(uses, expr)?;
    }
    Ok(())
}

#[cycle(expr)]
#[tactic(auto, using(asm_tree::proofs::Views::views, crate::proofs::Added::added))]
fn add_links<'a>(uses: &mut Vec<Use<'a>>, links: &'a [Link]) -> Result<(), AllocError>
    ensures { OnOk result (uses_view uses.new.items ≡ uses_view uses.old.items ++ links_uses (links_view links.now)) }
{
    for link in links {
        add_expr(uses, &link.operand)?;
    }
    Ok(())
}

#[tactic(auto, using(asm_tree::proofs::Views::views, crate::proofs::Added::added))]
pub fn add_option<'a>(uses: &mut Vec<Use<'a>>, expr: &'a Option<Expr>) -> Result<(), AllocError>
    ensures { OnOk result (uses_view uses.new.items ≡ uses_view uses.old.items ++ option_uses (expr_option expr.now)) }
{
    match expr {
        None => Ok(()),
        Some(expr) => add_expr(uses, expr),
    }
}
