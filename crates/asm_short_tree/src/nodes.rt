//! Expressions whose inner expressions are renamed already, and those without inner ones.

ghost use Rattle.std.specs.Prelude.{◌≡◌, IfOk};
ghost use Rattle.sem_words.specs.Lists.{list_items, text_bytes};
ghost use Rattle.asm_lang.specs.Modules.{decimal, var, index, call, table_call, assign, store};
ghost use Rattle.asm_tree.specs.Views.{expr_view, exprs_view};
ghost use Rattle.asm_short_tree.specs.Looking.{look_by};

use crate::look::Look;
use asm_tree::Expr;
use sem_words::{List, Text};
use std::alloc::{AllocError, Global};

pub(crate) fn copied(alloc: Global, text: &Text) -> Result<Text, AllocError>
    ensures { IfOk result (λ r. text_bytes r ≡ text_bytes text.now) }
{
    Text::from_bytes(alloc, text.as_bytes())
}

#[inline(never)]
pub(crate) fn boxed(alloc: Global, expr: Expr) -> Result<Box<Expr>, AllocError>
    ensures { IfOk result (λ r. r.value ≡ expr) }
{
    match Box::new(alloc, expr) {
        Ok(expr) => Ok(expr),
        Err(_) => Err(AllocError),
    }
}

#[inline(never)]
#[tactic(auto, using(asm_tree::proofs::Views::views))]
pub(crate) fn decimal(alloc: Global, text: &Text) -> Result<Expr, AllocError>
    ensures { IfOk result (λ r. expr_view r ≡ decimal (text_bytes text.now)) }
{
    let text = copied(alloc, text)?;
    Ok(Expr::Decimal(text))
}

#[inline(never)]
#[tactic(auto, using(asm_tree::proofs::Views::views))]
pub(crate) fn variable(alloc: Global, look: &Look<'_, '_>, name: &Text) -> Result<Expr, AllocError>
    ensures { IfOk result (λ r. expr_view r ≡ var (look_by look.now (text_bytes name.now))) }
{
    let name = look.text(alloc, name)?;
    Ok(Expr::Var(name))
}

#[inline(never)]
#[tactic(auto, using(asm_tree::proofs::Views::views))]
pub(crate) fn element(
    alloc: Global,
    look: &Look<'_, '_>,
    name: &Text,
    at: Box<Expr>,
) -> Result<Expr, AllocError>
    ensures { IfOk result (λ r. expr_view r ≡ index (look_by look.now (text_bytes name.now)) (expr_view at.value)) }
{
    let name = look.text(alloc, name)?;
    Ok(Expr::Index(name, at))
}

#[inline(never)]
#[tactic(auto, using(asm_tree::proofs::Views::views))]
pub(crate) fn call(
    alloc: Global,
    look: &Look<'_, '_>,
    name: &Text,
    arguments: List<Expr>,
) -> Result<Expr, AllocError>
    ensures { IfOk result (λ r. expr_view r ≡ call (look_by look.now (text_bytes name.now)) (exprs_view (list_items arguments))) }
{
    let name = look.text(alloc, name)?;
    Ok(Expr::Call(name, arguments))
}

#[inline(never)]
#[tactic(auto, using(asm_tree::proofs::Views::views))]
pub(crate) fn table_call(
    alloc: Global,
    look: &Look<'_, '_>,
    name: &Text,
    at: Box<Expr>,
    arguments: List<Expr>,
) -> Result<Expr, AllocError>
    ensures { IfOk result (λ r. expr_view r ≡ table_call (look_by look.now (text_bytes name.now)) (expr_view at.value) (exprs_view (list_items arguments))) }
{
    let name = look.text(alloc, name)?;
    Ok(Expr::TableCall(name, at, arguments))
}

#[inline(never)]
#[tactic(auto, using(asm_tree::proofs::Views::views))]
pub(crate) fn assignment(
    alloc: Global,
    look: &Look<'_, '_>,
    name: &Text,
    value: Box<Expr>,
) -> Result<Expr, AllocError>
    ensures { IfOk result (λ r. expr_view r ≡ assign (look_by look.now (text_bytes name.now)) (expr_view value.value)) }
{
    let name = look.text(alloc, name)?;
    Ok(Expr::Assign(name, value))
}

#[inline(never)]
#[tactic(auto, using(asm_tree::proofs::Views::views))]
pub(crate) fn store(
    alloc: Global,
    look: &Look<'_, '_>,
    name: &Text,
    at: Box<Expr>,
    value: Box<Expr>,
) -> Result<Expr, AllocError>
    ensures { IfOk result (λ r. expr_view r ≡ store (look_by look.now (text_bytes name.now)) (expr_view at.value) (expr_view value.value)) }
{
    let name = look.text(alloc, name)?;
    Ok(Expr::Store(name, at, value))
}
