//! The names in statements.

ghost use Rattle.std.specs.Prelude.{◌≡◌, ◌++◌, IfOk, OnOk};
ghost use Rattle.asm_tree.specs.Views.{expr_option, stmt_view, stmts_view, clauses_view};
ghost use Rattle.asm_short_lang.specs.Uses.{option_uses, stmt_uses, stmts_uses, clauses_uses};
ghost use Rattle.asm_short_uses.specs.Views.{uses_view};

use crate::expressions::{add_expr, add_option};
use crate::naming::Use;
use asm_tree::{Clause, ForHead, Stmt};
use std::alloc::{AllocError, Global};

/// The names that statements use, in text order.
pub fn uses_of<'a>(alloc: Global, stmts: &'a [Stmt]) -> Result<Vec<Use<'a>>, AllocError>
    ensures { IfOk result (λ uses. uses_view uses.items ≡ stmts_uses (stmts_view stmts.now)) }
{
    let mut uses = Vec::new(alloc);
    add_stmts(&mut uses, stmts)?;
    Ok(uses)
}

#[cycle(stmt)]
#[tactic(auto, using(asm_tree::proofs::Views::views, crate::proofs::Added::added))]
fn add_stmt<'a>(uses: &mut Vec<Use<'a>>, stmt: &'a Stmt) -> Result<(), AllocError>
    ensures { OnOk result (uses_view uses.new.items ≡ uses_view uses.old.items ++ stmt_uses (stmt_view stmt.now)) }
{
    match stmt {
        Stmt::Block(body) => add_stmts(uses, body.as_slice()),
        Stmt::Plain(expr) => add_expr(uses, expr),
        Stmt::Empty | Stmt::Break(_) | Stmt::Continue(_) => Ok(()),
        Stmt::If(body, other, condition) => {
            add_expr(uses, condition)?;
            add_stmt(uses, body)?;
            match other {
                None => Ok(()),
                Some(other) => add_stmt(uses, other),
            }
        }
        Stmt::Return(value) => add_option(uses, value),
        Stmt::While(condition, body) => {
            add_expr(uses, condition)?;
            add_stmt(uses, body)
        }
        Stmt::DoWhile(body, condition) => {
            add_stmt(uses, body)?;
            add_expr(uses, condition)
        }
        Stmt::For(head, body) => {
            add_head(uses, head)?;
            add_stmt(uses, body)
        }
        Stmt::Labelled(_, body) => add_stmt(uses, body),
        Stmt::Switch(clauses, subject) => {
            add_expr(uses, subject)?;
            add_clauses(uses, clauses.as_slice())
        }
    }
}

#[tactic(auto, using(crate::proofs::Added::added))]
fn add_head<'a>(uses: &mut Vec<Use<'a>>, head: &'a ForHead) -> Result<(), AllocError>
    ensures { OnOk result (uses_view uses.new.items ≡ uses_view uses.old.items ++ (option_uses (expr_option head.now.start) ++ (option_uses (expr_option head.now.condition) ++ option_uses (expr_option head.now.step)))) }
{
    add_option(uses, &head.start)?;
    add_option(uses, &head.condition)?;
    add_option(uses, &head.step)
}

#[cycle(stmt)]
#[tactic(auto, using(asm_tree::proofs::Views::views, crate::proofs::Added::added))]
fn add_stmts<'a>(uses: &mut Vec<Use<'a>>, stmts: &'a [Stmt]) -> Result<(), AllocError>
    ensures { OnOk result (uses_view uses.new.items ≡ uses_view uses.old.items ++ stmts_uses (stmts_view stmts.now)) }
{
    for stmt in stmts {
        add_stmt(uses, stmt)?;
    }
    Ok(())
}

#[cycle(stmt)]
#[tactic(auto, using(asm_tree::proofs::Views::views, crate::proofs::Added::added))]
fn add_clauses<'a>(uses: &mut Vec<Use<'a>>, clauses: &'a [Clause]) -> Result<(), AllocError>
    ensures { OnOk result (uses_view uses.new.items ≡ uses_view uses.old.items ++ clauses_uses (clauses_view clauses.now)) }
{
    for clause in clauses {
        add_stmts(uses, clause.body.as_slice())?;
    }
    Ok(())
}
