//! Statements with new names.

ghost use Rattle.std.specs.Prelude.{◌≡◌, ◌≤◌, ◌+◌, IfOk, length};
ghost use Rattle.sem_words.specs.Lists.{list_items};
ghost use Rattle.asm_lang.specs.Modules.{labelled};
ghost use Rattle.asm_tree.specs.Views.{stmt_view, stmts_view, clauses_view, texts_view};
ghost use Rattle.asm_short_lang.specs.Renaming.{labels_in, labels_in_all, labels_in_clauses};
ghost use Rattle.asm_short_tree.specs.Bodies.{stmt_by, stmt_inside, stmts_by, clauses_by};

use crate::labels::{Labels, NewLabel, label_texts, numbered_labels};
use crate::lists::pushed;
use crate::look::Look;
use crate::wholes::{
    boxed, breaks, continues, do_while, expression, for_loop, if_else, if_only, returns, switches,
    while_loop,
};
use asm_tree::{Clause, Stmt};
use sem_words::{List, Text};
use std::alloc::{AllocError, Global};

/// What the names in a function become, and the numbers of the new names of all its labels, in text order.
#[derive(Clone, Copy)]
pub struct Renaming<'r, 'a> {
    pub look: Look<'r, 'a>,
    pub fresh: &'r [u64],
}

/// The statement with new names. `before` says how many labels stand before it, and then behind it.
///
/// A tree may be 1,000 high, so what inner statements needn't wait for is made elsewhere, and a level takes little of the
/// machine's stack.
#[cycle(renaming)]
#[inline(never)]
#[tactic(auto, using(asm_tree::proofs::Views::views))]
fn renamed_stmt<'l>(
    alloc: Global,
    renaming: &Renaming<'_, '_>,
    around: &'l Labels<'l>,
    before: &mut usize,
    stmt: &'l Stmt,
) -> Result<Stmt, AllocError>
    requires { before.old + labels_in (stmt_view stmt.now) ≤ length renaming.now.fresh.now }
    ensures renamed { IfOk result (λ r. stmt_view r ≡ stmt_by renaming.now around.now before.old (stmt_view stmt.now)) }
    ensures counted { IfOk result (λ _. before.new ≡ before.old + labels_in (stmt_view stmt.now)) }
{
    match stmt {
        Stmt::Block(body) => {
            let body = renamed_stmts(alloc, renaming, around, before, body.as_slice())?;
            Ok(Stmt::Block(body))
        }
        Stmt::Plain(expr) => expression(alloc, &renaming.look, expr),
        Stmt::Empty => Ok(Stmt::Empty),
        Stmt::If(first, second, condition) => {
            let first = renamed_body(alloc, renaming, around, before, first)?;
            match second {
                None => if_only(alloc, &renaming.look, condition, first),
                Some(second) => {
                    let second = renamed_body(alloc, renaming, around, before, second)?;
                    if_else(alloc, &renaming.look, condition, first, second)
                }
            }
        }
        Stmt::Return(value) => returns(alloc, &renaming.look, value),
        Stmt::While(condition, body) => {
            let body = renamed_body(alloc, renaming, around, before, body)?;
            while_loop(alloc, &renaming.look, condition, body)
        }
        Stmt::DoWhile(body, condition) => {
            let body = renamed_body(alloc, renaming, around, before, body)?;
            do_while(alloc, &renaming.look, body, condition)
        }
        Stmt::For(head, body) => {
            let body = renamed_body(alloc, renaming, around, before, body)?;
            for_loop(alloc, &renaming.look, head, body)
        }
        Stmt::Break(label) => breaks(alloc, around, label),
        Stmt::Continue(label) => continues(alloc, around, label),
        Stmt::Labelled(labels, body) => {
            renamed_labelled(alloc, renaming, around, before, labels.as_slice(), body)
        }
        Stmt::Switch(clauses, subject) => {
            let clauses = renamed_clauses(alloc, renaming, around, before, clauses.as_slice())?;
            switches(alloc, &renaming.look, subject, clauses)
        }
    }
}

#[cycle(renaming)]
#[inline(never)]
fn renamed_body<'l>(
    alloc: Global,
    renaming: &Renaming<'_, '_>,
    around: &'l Labels<'l>,
    before: &mut usize,
    stmt: &'l Stmt,
) -> Result<Box<Stmt>, AllocError>
    requires { before.old + labels_in (stmt_view stmt.now) ≤ length renaming.now.fresh.now }
    ensures renamed { IfOk result (λ r. stmt_view r.value ≡ stmt_by renaming.now around.now before.old (stmt_view stmt.now)) }
    ensures counted { IfOk result (λ _. before.new ≡ before.old + labels_in (stmt_view stmt.now)) }
{
    let stmt = renamed_stmt(alloc, renaming, around, before, stmt)?;
    boxed(alloc, stmt)
}

#[cycle(renaming)]
#[inline(never)]
#[tactic(auto, using(asm_tree::proofs::Views::views))]
fn renamed_labelled<'l>(
    alloc: Global,
    renaming: &Renaming<'_, '_>,
    around: &'l Labels<'l>,
    before: &mut usize,
    names: &'l [Text],
    stmt: &'l Stmt,
) -> Result<Stmt, AllocError>
    requires { before.old + (length names.now + labels_in (stmt_view stmt.now)) ≤ length renaming.now.fresh.now }
    ensures renamed { IfOk result (λ r. stmt_view r ≡ stmt_by renaming.now around.now before.old (labelled (texts_view names.now) (stmt_view stmt.now))) }
    ensures counted { IfOk result (λ _. before.new ≡ before.old + (length names.now + labels_in (stmt_view stmt.now))) }
{
    let labels = numbered_labels(alloc, renaming.fresh, *before, names)?;
    *before += names.len();
    let stmt = renamed_inside(alloc, renaming, labels.as_slice(), &*around, before, stmt)?;
    let texts = label_texts(alloc, labels.as_slice())?;
    Ok(Stmt::Labelled(texts, stmt))
}

// The statement under these labels.
#[cycle(renaming)]
#[inline(never)]
#[tactic(auto, using(crate::proofs::Around::around))]
fn renamed_inside<'l>(
    alloc: Global,
    renaming: &Renaming<'_, '_>,
    labels: &'l [NewLabel<'l>],
    around: &'l Labels<'l>,
    before: &mut usize,
    stmt: &'l Stmt,
) -> Result<Box<Stmt>, AllocError>
    requires { before.old + labels_in (stmt_view stmt.now) ≤ length renaming.now.fresh.now }
    ensures renamed { IfOk result (λ r. stmt_view r.value ≡ stmt_inside renaming.now labels.now around.now before.old (stmt_view stmt.now)) }
    ensures counted { IfOk result (λ _. before.new ≡ before.old + labels_in (stmt_view stmt.now)) }
{
    let inside = Labels::Inside(labels, around);
    let stmt = renamed_body(alloc, renaming, &inside, before, stmt)?;
    Ok(stmt)
}

#[cycle(renaming)]
#[inline(never)]
pub(crate) fn renamed_stmts<'l>(
    alloc: Global,
    renaming: &Renaming<'_, '_>,
    around: &'l Labels<'l>,
    before: &mut usize,
    stmts: &'l [Stmt],
) -> Result<List<Stmt>, AllocError>
    requires { before.old + labels_in_all (stmts_view stmts.now) ≤ length renaming.now.fresh.now }
    ensures renamed { IfOk result (λ r. stmts_view (list_items r) ≡ stmts_by renaming.now around.now before.old (stmts_view stmts.now)) }
    ensures counted { IfOk result (λ _. before.new ≡ before.old + labels_in_all (stmts_view stmts.now)) }
{
    let empty = List::with_capacity(alloc, stmts.len())?;
    let mut list = empty;
    for stmt in stmts {
        let stmt = renamed_stmt(alloc, renaming, around, before, stmt)?;
        list = pushed(list, stmt)?;
    }
    Ok(list)
}

#[cycle(renaming)]
#[inline(never)]
fn renamed_clauses<'l>(
    alloc: Global,
    renaming: &Renaming<'_, '_>,
    around: &'l Labels<'l>,
    before: &mut usize,
    clauses: &'l [Clause],
) -> Result<List<Clause>, AllocError>
    requires { before.old + labels_in_clauses (clauses_view clauses.now) ≤ length renaming.now.fresh.now }
    ensures renamed { IfOk result (λ r. clauses_view (list_items r) ≡ clauses_by renaming.now around.now before.old (clauses_view clauses.now)) }
    ensures counted { IfOk result (λ _. before.new ≡ before.old + labels_in_clauses (clauses_view clauses.now)) }
{
    let empty = List::with_capacity(alloc, clauses.len())?;
    let mut list = empty;
    for clause in clauses {
        let value = clause.value;
        let body = renamed_stmts(alloc, renaming, around, before, clause.body.as_slice())?;
        list = pushed(list, Clause { value, body })?;
    }
    Ok(list)
}
