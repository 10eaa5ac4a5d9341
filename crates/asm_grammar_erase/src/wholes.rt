//! Statements whose inner statements are erased already, and those without inner ones.

ghost use Rattle.std.specs.Prelude.{◌≡◌, IfOk};
ghost use Rattle.sem_words.specs.Lists.{list_items};
ghost use Rattle.asm_lang.specs.Modules.{plain as plain_stmt, if_only, if_else, returns, while_loop, do_while, for_loop, breaks, continues, switches, expr_of, option_of};
ghost use Rattle.asm_grammar_nodes.specs.Views as placed;
ghost use Rattle.asm_tree.specs.Views as views;

use crate::expressions::{erased_expr, erased_option};
use crate::nodes::copied;
use asm_grammar_nodes::{ExprTree, ForHeadTree};
use asm_tree::{Clause, ForHead, Stmt};
use sem_words::{List, Text};
use std::alloc::{AllocError, Global};

pub(crate) fn copied_option(alloc: Global, text: &Option<Text>) -> Result<Option<Text>, AllocError>
    ensures { IfOk result (λ r. views.text_option r ≡ placed.name_option text.now) }
{
    match text {
        None => Ok(None),
        Some(text) => {
            let text = copied(alloc, text)?;
            Ok(Some(text))
        }
    }
}

#[inline(never)]
pub(crate) fn boxed(alloc: Global, stmt: Stmt) -> Result<Box<Stmt>, AllocError>
    ensures { IfOk result (λ r. r.value ≡ stmt) }
{
    match Box::new(alloc, stmt) {
        Ok(stmt) => Ok(stmt),
        Err(_) => Err(AllocError),
    }
}

#[inline(never)]
#[tactic(auto, using(crate::proofs::StmtErasing::statements))]
pub(crate) fn expression(alloc: Global, expr: &ExprTree) -> Result<Stmt, AllocError>
    ensures { IfOk result (λ r. views.stmt_view r ≡ plain_stmt (expr_of (placed.expr_view expr.now))) }
{
    let expr = erased_expr(alloc, expr)?;
    Ok(Stmt::Plain(expr))
}

#[inline(never)]
#[tactic(auto, using(crate::proofs::StmtErasing::statements))]
pub(crate) fn if_only(
    alloc: Global,
    condition: &ExprTree,
    first: Box<Stmt>,
) -> Result<Stmt, AllocError>
    ensures { IfOk result (λ r. views.stmt_view r ≡ if_only (expr_of (placed.expr_view condition.now)) (views.stmt_view first.value)) }
{
    let condition = erased_expr(alloc, condition)?;
    Ok(Stmt::If(first, None, condition))
}

#[inline(never)]
#[tactic(auto, using(crate::proofs::StmtErasing::statements))]
pub(crate) fn if_else(
    alloc: Global,
    condition: &ExprTree,
    first: Box<Stmt>,
    second: Box<Stmt>,
) -> Result<Stmt, AllocError>
    ensures { IfOk result (λ r. views.stmt_view r ≡ if_else (expr_of (placed.expr_view condition.now)) (views.stmt_view first.value) (views.stmt_view second.value)) }
{
    let condition = erased_expr(alloc, condition)?;
    Ok(Stmt::If(first, Some(second), condition))
}

#[inline(never)]
#[tactic(auto, using(crate::proofs::StmtErasing::statements))]
pub(crate) fn returns(alloc: Global, value: &Option<Box<ExprTree>>) -> Result<Stmt, AllocError>
    ensures { IfOk result (λ r. views.stmt_view r ≡ returns (option_of (placed.expr_option value.now))) }
{
    let value = erased_option(alloc, value)?;
    Ok(Stmt::Return(value))
}

#[inline(never)]
#[tactic(auto, using(crate::proofs::StmtErasing::statements))]
pub(crate) fn while_loop(
    alloc: Global,
    condition: &ExprTree,
    body: Box<Stmt>,
) -> Result<Stmt, AllocError>
    ensures { IfOk result (λ r. views.stmt_view r ≡ while_loop (expr_of (placed.expr_view condition.now)) (views.stmt_view body.value)) }
{
    let condition = erased_expr(alloc, condition)?;
    Ok(Stmt::While(condition, body))
}

#[inline(never)]
#[tactic(auto, using(crate::proofs::StmtErasing::statements))]
pub(crate) fn do_while(
    alloc: Global,
    body: Box<Stmt>,
    condition: &ExprTree,
) -> Result<Stmt, AllocError>
    ensures { IfOk result (λ r. views.stmt_view r ≡ do_while (views.stmt_view body.value) (expr_of (placed.expr_view condition.now))) }
{
    let condition = erased_expr(alloc, condition)?;
    Ok(Stmt::DoWhile(body, condition))
}

#[inline(never)]
fn erased_head(alloc: Global, head: &ForHeadTree) -> Result<ForHead, AllocError>
    ensures start { IfOk result (λ r. views.expr_option r.start ≡ option_of (placed.expr_option head.now.start)) }
    ensures condition { IfOk result (λ r. views.expr_option r.condition ≡ option_of (placed.expr_option head.now.condition)) }
    ensures step { IfOk result (λ r. views.expr_option r.step ≡ option_of (placed.expr_option head.now.step)) }
{
    let start = erased_option(alloc, &head.start)?;
    let condition = erased_option(alloc, &head.condition)?;
    let step = erased_option(alloc, &head.step)?;
    Ok(ForHead {
        start,
        condition,
        step,
    })
}

#[inline(never)]
fn boxed_head(alloc: Global, head: &ForHeadTree) -> Result<Box<ForHead>, AllocError>
    ensures start { IfOk result (λ r. views.expr_option r.value.start ≡ option_of (placed.expr_option head.now.start)) }
    ensures condition { IfOk result (λ r. views.expr_option r.value.condition ≡ option_of (placed.expr_option head.now.condition)) }
    ensures step { IfOk result (λ r. views.expr_option r.value.step ≡ option_of (placed.expr_option head.now.step)) }
{
    let head = erased_head(alloc, head)?;
    Ok(Box::new(alloc, head)?)
}

#[inline(never)]
#[tactic(auto, using(crate::proofs::StmtErasing::statements))]
pub(crate) fn for_loop(
    alloc: Global,
    head: &ForHeadTree,
    body: Box<Stmt>,
) -> Result<Stmt, AllocError>
    ensures { IfOk result (λ r. views.stmt_view r ≡ for_loop (option_of (placed.expr_option head.now.start)) (option_of (placed.expr_option head.now.condition)) (option_of (placed.expr_option head.now.step)) (views.stmt_view body.value)) }
{
    let head = boxed_head(alloc, head)?;
    Ok(Stmt::For(head, body))
}

#[inline(never)]
#[tactic(auto, using(crate::proofs::StmtErasing::statements))]
pub(crate) fn breaks(alloc: Global, label: &Option<Text>) -> Result<Stmt, AllocError>
    ensures { IfOk result (λ r. views.stmt_view r ≡ breaks (placed.name_option label.now)) }
{
    let label = copied_option(alloc, label)?;
    Ok(Stmt::Break(label))
}

#[inline(never)]
#[tactic(auto, using(crate::proofs::StmtErasing::statements))]
pub(crate) fn continues(alloc: Global, label: &Option<Text>) -> Result<Stmt, AllocError>
    ensures { IfOk result (λ r. views.stmt_view r ≡ continues (placed.name_option label.now)) }
{
    let label = copied_option(alloc, label)?;
    Ok(Stmt::Continue(label))
}

#[inline(never)]
#[tactic(auto, using(crate::proofs::StmtErasing::statements))]
pub(crate) fn switches(
    alloc: Global,
    subject: &ExprTree,
    clauses: List<Clause>,
) -> Result<Stmt, AllocError>
    ensures { IfOk result (λ r. views.stmt_view r ≡ switches (expr_of (placed.expr_view subject.now)) (views.clauses_view (list_items clauses))) }
{
    let subject = erased_expr(alloc, subject)?;
    Ok(Stmt::Switch(clauses, subject))
}
