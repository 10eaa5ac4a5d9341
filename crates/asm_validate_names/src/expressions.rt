// The names that expressions use.

ghost use Rattle.std.specs.Prelude.{◌≡◌, ◌+◌, ◌<◌, ◌^◌, IfOk};
ghost use Rattle.asm_tree.specs.Views.{expr_view, exprs_view, links_view};
ghost use Rattle.asm_lang_valid.specs.Rows.{first, expr_count, exprs_count, links_count};
ghost use Rattle.asm_lang_valid.specs.NameRows as rows;
ghost use Rattle.asm_names.specs.Scopes.{scope_view, IsCompleteScope};
ghost use Rattle.asm_validate_names.specs.Found.{row_of};

use crate::uses::{use_callee, use_table, use_variable, use_view};
use asm_lang_valid::Met;
use asm_names::Scope;
use asm_tree::{Expr, Link};

/// The first name in an expression that breaks a rule. `at` is the number of the next node.
#[cycle(expressions)]
#[tactic(auto, using(crate::proofs::Found::steps))]
pub fn expr_names(scope: &Scope<'_, '_>, expr: &Expr, at: &mut u64) -> Result<(), Met>
    requires known { IsCompleteScope scope.now }
    requires room { at.old + expr_count (expr_view expr.now) < 2 ^ 64 }
    ensures is { first (rows.expr_names (scope_view scope.now) at.old (expr_view expr.now)) ≡ row_of result }
    ensures counted { IfOk result (λ _. at.new ≡ at.old + expr_count (expr_view expr.now)) }
{
    let node = *at;
    *at += 1;
    match expr {
        Expr::Lit(_) | Expr::Decimal(_) => Ok(()),
        Expr::Var(name) => use_variable(scope, name, node),
        Expr::Index(name, index) => {
            expr_names(scope, index, at)?;
            use_view(scope, name, node)
        }
        Expr::Call(name, arguments) => {
            exprs_names(scope, arguments.as_slice(), at)?;
            use_callee(scope, name, node)
        }
        Expr::TableCall(name, index, arguments) => {
            expr_names(scope, index, at)?;
            exprs_names(scope, arguments.as_slice(), at)?;
            use_table(scope, name, node)
        }
        Expr::Assign(name, value) => {
            expr_names(scope, value, at)?;
            use_variable(scope, name, node)
        }
        Expr::Store(name, index, value) => {
            expr_names(scope, index, at)?;
            expr_names(scope, value, at)?;
            use_view(scope, name, node)
        }
        Expr::Unary(_, operand) => expr_names(scope, operand, at),
        Expr::Binary(_, left, right) => {
            expr_names(scope, left, at)?;
            expr_names(scope, right, at)
        }
        Expr::Chain(first, links) => {
            expr_names(scope, first, at)?;
            links_names(scope, links.as_slice(), at)
        }
        Expr::Cond(condition, yes, no) => {
            expr_names(scope, condition, at)?;
            expr_names(scope, yes, at)?;
            expr_names(scope, no, at)
        }
        Expr::Comma(parts) => exprs_names(scope, parts.as_slice(), at),
    }
}

#[cycle(expressions)]
#[tactic(auto, using(crate::proofs::Found::steps))]
fn exprs_names(scope: &Scope<'_, '_>, exprs: &[Expr], at: &mut u64) -> Result<(), Met>
    requires known { IsCompleteScope scope.now }
    requires room { at.old + exprs_count (exprs_view exprs.now) < 2 ^ 64 }
    ensures is { first (rows.exprs_names (scope_view scope.now) at.old (exprs_view exprs.now)) ≡ row_of result }
    ensures counted { IfOk result (λ _. at.new ≡ at.old + exprs_count (exprs_view exprs.now)) }
{
    for expr in exprs {
        expr_names(scope, expr, at)?;
    }
    Ok(())
}

#[cycle(expressions)]
#[tactic(auto, using(crate::proofs::Found::steps))]
fn links_names(scope: &Scope<'_, '_>, links: &[Link], at: &mut u64) -> Result<(), Met>
    requires known { IsCompleteScope scope.now }
    requires room { at.old + links_count (links_view links.now) < 2 ^ 64 }
    ensures is { first (rows.links_names (scope_view scope.now) at.old (links_view links.now)) ≡ row_of result }
    ensures counted { IfOk result (λ _. at.new ≡ at.old + links_count (links_view links.now)) }
{
    for link in links {
        expr_names(scope, &link.operand, at)?;
    }
    Ok(())
}
