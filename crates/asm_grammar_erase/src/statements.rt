//! From a statement with places to the statement that it says.

ghost use Rattle.std.specs.Prelude.{◌≡◌, IfOk};
ghost use Rattle.sem_words.specs.Lists.{list_items};
ghost use Rattle.asm_lang.specs.Modules.{stmt_of, stmts_of, clauses_of};
ghost use Rattle.asm_grammar_nodes.specs.Views as placed;
ghost use Rattle.asm_tree.specs.Views as plain;

use crate::labels::with_labels;
use crate::lists::{last_taken, pushed};
use crate::number::value_of;
use crate::wholes::{
    boxed, breaks, continues, do_while, expression, for_loop, if_else, if_only, returns, switches,
    while_loop,
};
use asm_grammar_nodes::{ClauseTree, StmtTree};
use asm_tree::{Clause, Stmt};
use sem_words::List;
use std::alloc::{AllocError, Global};

/// The statement, without places.
///
/// A tree may be 1,000 high, so what inner statements needn't wait for is made elsewhere, and a level takes little of the
/// machine's stack.
#[cycle(erasing)]
#[inline(never)]
#[tactic(auto, using(crate::proofs::StmtErasing::statements))]
pub(crate) fn erased_stmt(alloc: Global, tree: &StmtTree) -> Result<Stmt, AllocError>
    ensures { IfOk result (λ r. plain.stmt_view r ≡ stmt_of (placed.stmt_view tree.now)) }
{
    match tree {
        StmtTree::Block(_, body) => {
            let body = erased_stmts(alloc, body.as_slice())?;
            Ok(Stmt::Block(body))
        }
        StmtTree::Plain(_, expr) => expression(alloc, expr),
        StmtTree::Empty(_) => Ok(Stmt::Empty),
        StmtTree::If(_, condition, first, second) => {
            let first = erased_body(alloc, first)?;
            match second {
                None => if_only(alloc, condition, first),
                Some(second) => {
                    let second = erased_body(alloc, second)?;
                    if_else(alloc, condition, first, second)
                }
            }
        }
        StmtTree::Return(_, value) => returns(alloc, value),
        StmtTree::While(_, condition, body) => {
            let body = erased_body(alloc, body)?;
            while_loop(alloc, condition, body)
        }
        StmtTree::DoWhile(_, body, condition) => {
            let body = erased_body(alloc, body)?;
            do_while(alloc, body, condition)
        }
        StmtTree::For(_, head, body) => {
            let body = erased_body(alloc, body)?;
            for_loop(alloc, head, body)
        }
        StmtTree::Break(_, label) => breaks(alloc, label),
        StmtTree::Continue(_, label) => continues(alloc, label),
        StmtTree::Labelled(labels, body) => {
            let body = erased_body(alloc, body)?;
            with_labels(alloc, labels.as_slice(), body)
        }
        StmtTree::Switch(_, subject, clauses) => {
            let clauses = erased_clauses(alloc, clauses.as_slice())?;
            switches(alloc, subject, clauses)
        }
    }
}

#[cycle(erasing)]
#[inline(never)]
fn erased_body(alloc: Global, tree: &StmtTree) -> Result<Box<Stmt>, AllocError>
    ensures { IfOk result (λ r. plain.stmt_view r.value ≡ stmt_of (placed.stmt_view tree.now)) }
{
    let stmt = erased_stmt(alloc, tree)?;
    boxed(alloc, stmt)
}

#[cycle(erasing)]
#[inline(never)]
fn erased_stmts(alloc: Global, trees: &[StmtTree]) -> Result<List<Stmt>, AllocError>
    ensures { IfOk result (λ r. plain.stmts_view (list_items r) ≡ stmts_of (placed.stmts_view trees.now)) }
{
    let empty = List::with_capacity(alloc, trees.len())?;
    let mut stmts = empty;
    for tree in trees {
        let stmt = erased_stmt(alloc, tree)?;
        stmts = pushed(stmts, stmt)?;
    }
    Ok(stmts)
}

/// The statements of a body. Each is let go as soon as it is erased, and room of the list with it, so that few are held twice.
pub(crate) fn used_stmts(alloc: Global, trees: List<StmtTree>) -> Result<List<Stmt>, AllocError>
    ensures { IfOk result (λ r. plain.stmts_view (list_items r) ≡ stmts_of (placed.stmts_view (list_items trees))) }
{
    let empty = List::with_capacity(alloc, trees.len())?;
    let mut stmts = empty;
    let mut left = trees.into_vec();
    left.reverse();
    while let Some(tree) = last_taken(&mut left) {
        let stmt = erased_stmt(alloc, &tree)?;
        stmts = pushed(stmts, stmt)?;
    }
    Ok(stmts)
}

#[cycle(erasing)]
#[inline(never)]
fn erased_clauses(alloc: Global, trees: &[ClauseTree]) -> Result<List<Clause>, AllocError>
    ensures { IfOk result (λ r. plain.clauses_view (list_items r) ≡ clauses_of (placed.clauses_view trees.now)) }
{
    let empty = List::with_capacity(alloc, trees.len())?;
    let mut clauses = empty;
    for tree in trees {
        let body = erased_stmts(alloc, tree.body.as_slice())?;
        let value = value_of(tree.value);
        clauses = pushed(clauses, Clause { value, body })?;
    }
    Ok(clauses)
}
