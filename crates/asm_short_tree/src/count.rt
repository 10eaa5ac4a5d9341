//! How many labels statements have. More of them than 64 bits count would have no room in memory.

ghost use Rattle.std.specs.Prelude.{◌≡◌, ◌+◌, OnOk};
ghost use Rattle.asm_tree.specs.Views.{stmt_view, stmts_view, clauses_view};
ghost use Rattle.asm_short_lang.specs.Renaming.{labels_in, labels_in_all, labels_in_clauses};

use asm_tree::{Clause, Stmt};
use std::alloc::AllocError;

#[tactic(auto, using(crate::proofs::Counts::counts))]
fn add(count: &mut usize, more: usize) -> Result<(), AllocError>
    ensures { OnOk result (count.new ≡ count.old + more) }
{
    match count.checked_add(more) {
        Some(sum) => {
            *count = sum;
            Ok(())
        }
        None => Err(AllocError),
    }
}

#[cycle(counting)]
#[tactic(auto, using(asm_tree::proofs::Views::views, crate::proofs::Counts::counts))]
fn count_stmt(count: &mut usize, stmt: &Stmt) -> Result<(), AllocError>
    ensures { OnOk result (count.new ≡ count.old + labels_in (stmt_view stmt.now)) }
{
    match stmt {
        Stmt::Plain(_) | Stmt::Empty | Stmt::Return(_) | Stmt::Break(_) | Stmt::Continue(_) => Ok(
            (),
        ),
        Stmt::Block(body) => count_stmts(count, body.as_slice()),
        Stmt::If(first, second, _) => {
            count_stmt(count, first)?;
            match second {
                None => Ok(()),
                Some(second) => count_stmt(count, second),
            }
        }
        Stmt::While(_, body) => count_stmt(count, body),
        Stmt::DoWhile(body, _) => count_stmt(count, body),
        Stmt::For(_, body) => count_stmt(count, body),
        Stmt::Labelled(labels, body) => {
            add(count, labels.len())?;
            count_stmt(count, body)
        }
        Stmt::Switch(clauses, _) => count_clauses(count, clauses.as_slice()),
    }
}

/// Adds how many labels statements have.
#[cycle(counting)]
#[tactic(auto, using(asm_tree::proofs::Views::views, crate::proofs::Counts::counts))]
pub(crate) fn count_stmts(count: &mut usize, stmts: &[Stmt]) -> Result<(), AllocError>
    ensures { OnOk result (count.new ≡ count.old + labels_in_all (stmts_view stmts.now)) }
{
    for stmt in stmts {
        count_stmt(count, stmt)?;
    }
    Ok(())
}

#[cycle(counting)]
#[tactic(auto, using(asm_tree::proofs::Views::views, crate::proofs::Counts::counts))]
fn count_clauses(count: &mut usize, clauses: &[Clause]) -> Result<(), AllocError>
    ensures { OnOk result (count.new ≡ count.old + labels_in_clauses (clauses_view clauses.now)) }
{
    for clause in clauses {
        count_stmts(count, clause.body.as_slice())?;
    }
    Ok(())
}
