// The names that statements use.

ghost use Rattle.std.specs.Prelude.{◌≡◌, ◌+◌, ◌<◌, ◌^◌, IfOk};
ghost use Rattle.asm_tree.specs.Views.{expr_option, stmt_view, stmts_view, clauses_view};
ghost use Rattle.asm_lang_valid.specs.Rows.{first, option_count, stmt_count, stmts_count, clauses_count};
ghost use Rattle.asm_lang_valid.specs.NameRows as rows;
ghost use Rattle.asm_names.specs.Scopes.{scope_view, IsCompleteScope};
ghost use Rattle.asm_validate_names.specs.Found.{row_of};

use crate::expressions::expr_names;
use asm_lang_valid::Met;
use asm_names::Scope;
use asm_tree::{Clause, Expr, Stmt};

/// The first name in a statement that breaks a rule. `at` is the number of the next node.
#[cycle(statements)]
#[tactic(auto, using(crate::proofs::Found::steps))]
pub fn stmt_names(scope: &Scope<'_, '_>, stmt: &Stmt, at: &mut u64) -> Result<(), Met>
    requires known { IsCompleteScope scope.now }
    requires room { at.old + stmt_count (stmt_view stmt.now) < 2 ^ 64 }
    ensures is { first (rows.stmt_names (scope_view scope.now) at.old (stmt_view stmt.now)) ≡ row_of result }
    ensures counted { IfOk result (λ _. at.new ≡ at.old + stmt_count (stmt_view stmt.now)) }
{
    *at += 1;
    match stmt {
        Stmt::Empty | Stmt::Break(_) | Stmt::Continue(_) => Ok(()),
        Stmt::Block(body) => stmts_names(scope, body.as_slice(), at),
        Stmt::Plain(expr) => expr_names(scope, expr, at),
        Stmt::If(yes, no, condition) => {
            expr_names(scope, condition, at)?;
            stmt_names(scope, yes, at)?;
            match no {
                None => Ok(()),
                Some(no) => stmt_names(scope, no, at),
            }
        }
        Stmt::Return(value) => option_names(scope, value, at),
        Stmt::While(condition, body) => {
            expr_names(scope, condition, at)?;
            stmt_names(scope, body, at)
        }
        Stmt::DoWhile(body, condition) => {
            stmt_names(scope, body, at)?;
            expr_names(scope, condition, at)
        }
        Stmt::For(head, body) => {
            option_names(scope, &head.start, at)?;
            option_names(scope, &head.condition, at)?;
            option_names(scope, &head.step, at)?;
            stmt_names(scope, body, at)
        }
        Stmt::Labelled(_, body) => stmt_names(scope, body, at),
        Stmt::Switch(clauses, subject) => {
            expr_names(scope, subject, at)?;
            clauses_names(scope, clauses.as_slice(), at)
        }
    }
}

/// .. in statements.
#[cycle(statements)]
#[tactic(auto, using(crate::proofs::Found::steps))]
pub fn stmts_names(scope: &Scope<'_, '_>, stmts: &[Stmt], at: &mut u64) -> Result<(), Met>
    requires known { IsCompleteScope scope.now }
    requires room { at.old + stmts_count (stmts_view stmts.now) < 2 ^ 64 }
    ensures is { first (rows.stmts_names (scope_view scope.now) at.old (stmts_view stmts.now)) ≡ row_of result }
    ensures counted { IfOk result (λ _. at.new ≡ at.old + stmts_count (stmts_view stmts.now)) }
{
    for stmt in stmts {
        stmt_names(scope, stmt, at)?;
    }
    Ok(())
}

#[cycle(statements)]
#[tactic(auto, using(crate::proofs::Found::steps))]
fn clauses_names(scope: &Scope<'_, '_>, clauses: &[Clause], at: &mut u64) -> Result<(), Met>
    requires known { IsCompleteScope scope.now }
    requires room { at.old + clauses_count (clauses_view clauses.now) < 2 ^ 64 }
    ensures is { first (rows.clauses_names (scope_view scope.now) at.old (clauses_view clauses.now)) ≡ row_of result }
    ensures counted { IfOk result (λ _. at.new ≡ at.old + clauses_count (clauses_view clauses.now)) }
{
    for clause in clauses {
        stmts_names(scope, clause.body.as_slice(), at)?;
    }
    Ok(())
}

// .. in an expression that may be left out.
fn option_names(scope: &Scope<'_, '_>, expr: &Option<Expr>, at: &mut u64) -> Result<(), Met>
    requires known { IsCompleteScope scope.now }
    requires room { at.old + option_count (expr_option expr.now) < 2 ^ 64 }
    ensures is { first (rows.option_names (scope_view scope.now) at.old (expr_option expr.now)) ≡ row_of result }
    ensures counted { IfOk result (λ _. at.new ≡ at.old + option_count (expr_option expr.now)) }
{
    match expr {
        None => Ok(()),
        Some(expr) => expr_names(scope, expr, at),
    }
}
