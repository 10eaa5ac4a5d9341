//! Statements whose inner statements are renamed already, and those without inner ones.

ghost use Rattle.std.specs.Prelude.{◌≡◌, IfOk};
ghost use Rattle.sem_words.specs.Lists.{list_items};
ghost use Rattle.asm_lang.specs.Modules.{plain as plain_stmt, if_only, if_else, returns, while_loop, do_while, for_loop, breaks, continues, switches};
ghost use Rattle.asm_tree.specs.Views.{expr_view, expr_option, text_option, stmt_view, clauses_view};
ghost use Rattle.asm_short_lang.specs.Renaming.{expr_with, option_with, label_with};
ghost use Rattle.asm_short_tree.specs.Looking.{look_by};
ghost use Rattle.asm_short_tree.specs.Bodies.{labels_view};

use crate::expressions::{renamed_expr, renamed_option};
use crate::labels::{Labels, target};
use crate::look::Look;
use asm_tree::{Clause, Expr, ForHead, Stmt};
use sem_words::{List, Text};
use std::alloc::{AllocError, Global};

#[inline(never)]
pub(crate) fn boxed(alloc: Global, stmt: Stmt) -> Result<Box<Stmt>, AllocError>
    ensures { IfOk result (λ r. r.value ≡ stmt) }
{
    match Box::new(alloc, stmt) {
        Ok(stmt) => Ok(stmt),
        Err(_) => Err(AllocError),
    }
}

#[inline(never)]
#[tactic(auto, using(asm_tree::proofs::Views::views))]
pub(crate) fn expression(
    alloc: Global,
    look: &Look<'_, '_>,
    expr: &Expr,
) -> Result<Stmt, AllocError>
    ensures { IfOk result (λ r. stmt_view r ≡ plain_stmt (expr_with (look_by look.now) (expr_view expr.now))) }
{
    let expr = renamed_expr(alloc, look, expr)?;
    Ok(Stmt::Plain(expr))
}

#[inline(never)]
#[tactic(auto, using(asm_tree::proofs::Views::views))]
pub(crate) fn if_only(
    alloc: Global,
    look: &Look<'_, '_>,
    condition: &Expr,
    first: Box<Stmt>,
) -> Result<Stmt, AllocError>
    ensures { IfOk result (λ r. stmt_view r ≡ if_only (expr_with (look_by look.now) (expr_view condition.now)) (stmt_view first.value)) }
{
    let condition = renamed_expr(alloc, look, condition)?;
    Ok(Stmt::If(first, None, condition))
}

#[inline(never)]
#[tactic(auto, using(asm_tree::proofs::Views::views))]
pub(crate) fn if_else(
    alloc: Global,
    look: &Look<'_, '_>,
    condition: &Expr,
    first: Box<Stmt>,
    second: Box<Stmt>,
) -> Result<Stmt, AllocError>
    ensures { IfOk result (λ r. stmt_view r ≡ if_else (expr_with (look_by look.now) (expr_view condition.now)) (stmt_view first.value) (stmt_view second.value)) }
{
    let condition = renamed_expr(alloc, look, condition)?;
    Ok(Stmt::If(first, Some(second), condition))
}

#[inline(never)]
#[tactic(auto, using(asm_tree::proofs::Views::views))]
pub(crate) fn returns(
    alloc: Global,
    look: &Look<'_, '_>,
    value: &Option<Expr>,
) -> Result<Stmt, AllocError>
    ensures { IfOk result (λ r. stmt_view r ≡ returns (option_with (look_by look.now) (expr_option value.now))) }
{
    let value = renamed_option(alloc, look, value)?;
    Ok(Stmt::Return(value))
}

#[inline(never)]
#[tactic(auto, using(asm_tree::proofs::Views::views))]
pub(crate) fn while_loop(
    alloc: Global,
    look: &Look<'_, '_>,
    condition: &Expr,
    body: Box<Stmt>,
) -> Result<Stmt, AllocError>
    ensures { IfOk result (λ r. stmt_view r ≡ while_loop (expr_with (look_by look.now) (expr_view condition.now)) (stmt_view body.value)) }
{
    let condition = renamed_expr(alloc, look, condition)?;
    Ok(Stmt::While(condition, body))
}

#[inline(never)]
#[tactic(auto, using(asm_tree::proofs::Views::views))]
pub(crate) fn do_while(
    alloc: Global,
    look: &Look<'_, '_>,
    body: Box<Stmt>,
    condition: &Expr,
) -> Result<Stmt, AllocError>
    ensures { IfOk result (λ r. stmt_view r ≡ do_while (stmt_view body.value) (expr_with (look_by look.now) (expr_view condition.now))) }
{
    let condition = renamed_expr(alloc, look, condition)?;
    Ok(Stmt::DoWhile(body, condition))
}

#[inline(never)]
fn renamed_head(alloc: Global, look: &Look<'_, '_>, head: &ForHead) -> Result<ForHead, AllocError>
    ensures start { IfOk result (λ r. expr_option r.start ≡ option_with (look_by look.now) (expr_option head.now.start)) }
    ensures condition { IfOk result (λ r. expr_option r.condition ≡ option_with (look_by look.now) (expr_option head.now.condition)) }
    ensures step { IfOk result (λ r. expr_option r.step ≡ option_with (look_by look.now) (expr_option head.now.step)) }
{
    let start = renamed_option(alloc, look, &head.start)?;
    let condition = renamed_option(alloc, look, &head.condition)?;
    let step = renamed_option(alloc, look, &head.step)?;
    Ok(ForHead {
        start,
        condition,
        step,
    })
}

#[inline(never)]
fn boxed_head(
    alloc: Global,
    look: &Look<'_, '_>,
    head: &ForHead,
) -> Result<Box<ForHead>, AllocError>
    ensures start { IfOk result (λ r. expr_option r.value.start ≡ option_with (look_by look.now) (expr_option head.now.start)) }
    ensures condition { IfOk result (λ r. expr_option r.value.condition ≡ option_with (look_by look.now) (expr_option head.now.condition)) }
    ensures step { IfOk result (λ r. expr_option r.value.step ≡ option_with (look_by look.now) (expr_option head.now.step)) }
{
    let head = renamed_head(alloc, look, head)?;
    Ok(Box::new(alloc, head)?)
}

#[inline(never)]
#[tactic(auto, using(asm_tree::proofs::Views::views))]
pub(crate) fn for_loop(
    alloc: Global,
    look: &Look<'_, '_>,
    head: &ForHead,
    body: Box<Stmt>,
) -> Result<Stmt, AllocError>
    ensures { IfOk result (λ r. stmt_view r ≡ for_loop (option_with (look_by look.now) (expr_option head.now.start)) (option_with (look_by look.now) (expr_option head.now.condition)) (option_with (look_by look.now) (expr_option head.now.step)) (stmt_view body.value)) }
{
    let head = boxed_head(alloc, look, head)?;
    Ok(Stmt::For(head, body))
}

#[inline(never)]
#[tactic(auto, using(asm_tree::proofs::Views::views))]
pub(crate) fn breaks(
    alloc: Global,
    around: &Labels<'_>,
    label: &Option<Text>,
) -> Result<Stmt, AllocError>
    ensures { IfOk result (λ r. stmt_view r ≡ breaks (label_with (labels_view around.now) (text_option label.now))) }
{
    let label = target(alloc, around, label)?;
    Ok(Stmt::Break(label))
}

#[inline(never)]
#[tactic(auto, using(asm_tree::proofs::Views::views))]
pub(crate) fn continues(
    alloc: Global,
    around: &Labels<'_>,
    label: &Option<Text>,
) -> Result<Stmt, AllocError>
    ensures { IfOk result (λ r. stmt_view r ≡ continues (label_with (labels_view around.now) (text_option label.now))) }
{
    let label = target(alloc, around, label)?;
    Ok(Stmt::Continue(label))
}

#[inline(never)]
#[tactic(auto, using(asm_tree::proofs::Views::views))]
pub(crate) fn switches(
    alloc: Global,
    look: &Look<'_, '_>,
    subject: &Expr,
    clauses: List<Clause>,
) -> Result<Stmt, AllocError>
    ensures { IfOk result (λ r. stmt_view r ≡ switches (expr_with (look_by look.now) (expr_view subject.now)) (clauses_view (list_items clauses))) }
{
    let subject = renamed_expr(alloc, look, subject)?;
    Ok(Stmt::Switch(clauses, subject))
}
