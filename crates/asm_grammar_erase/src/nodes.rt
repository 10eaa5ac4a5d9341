//! Expressions whose inner expressions are erased already, and those without inner ones.

ghost use Rattle.std.specs.Prelude.{◌≡◌, IfOk};
ghost use Rattle.sem_words.specs.Lists.{list_items, text_bytes};
ghost use Rattle.asm_lang.specs.Modules.{decimal, var, index, call, table_call, assign, store};
ghost use Rattle.asm_tree.specs.Views.{expr_view, exprs_view};

use asm_tree::Expr;
use sem_words::{List, Text};
use std::alloc::{AllocError, Global};

pub(crate) fn copied(alloc: Global, text: &Text) -> Result<Text, AllocError>
    ensures { IfOk result (λ r. text_bytes r ≡ text_bytes text.now) }
{
    Text::from_bytes(alloc, text.as_bytes())
}

#[inline(never)]
pub(crate) fn boxed(alloc: Global, expr: Expr) -> Result<Box<Expr>, AllocError>
    ensures { IfOk result (λ r. r.value ≡ expr) }
{
    match Box::new(alloc, expr) {
        Ok(expr) => Ok(expr),
        Err(_) => Err(AllocError),
    }
}

#[inline(never)]
#[tactic(auto, using(crate::proofs::Erasing::expressions))]
pub(crate) fn decimal(alloc: Global, text: &Text) -> Result<Expr, AllocError>
    ensures { IfOk result (λ r. expr_view r ≡ decimal (text_bytes text.now)) }
{
    let text = copied(alloc, text)?;
    Ok(Expr::Decimal(text))
}

#[inline(never)]
#[tactic(auto, using(crate::proofs::Erasing::expressions))]
pub(crate) fn variable(alloc: Global, name: &Text) -> Result<Expr, AllocError>
    ensures { IfOk result (λ r. expr_view r ≡ var (text_bytes name.now)) }
{
    let name = copied(alloc, name)?;
    Ok(Expr::Var(name))
}

#[inline(never)]
#[tactic(auto, using(crate::proofs::Erasing::expressions))]
pub(crate) fn element(alloc: Global, name: &Text, at: Box<Expr>) -> Result<Expr, AllocError>
    ensures { IfOk result (λ r. expr_view r ≡ index (text_bytes name.now) (expr_view at.value)) }
{
    let name = copied(alloc, name)?;
    Ok(Expr::Index(name, at))
}

#[inline(never)]
#[tactic(auto, using(crate::proofs::Erasing::expressions))]
pub(crate) fn call(alloc: Global, name: &Text, arguments: List<Expr>) -> Result<Expr, AllocError>
    ensures { IfOk result (λ r. expr_view r ≡ call (text_bytes name.now) (exprs_view (list_items arguments))) }
{
    let name = copied(alloc, name)?;
    Ok(Expr::Call(name, arguments))
}

#[inline(never)]
#[tactic(auto, using(crate::proofs::Erasing::expressions))]
pub(crate) fn table_call(
    alloc: Global,
    name: &Text,
    at: Box<Expr>,
    arguments: List<Expr>,
) -> Result<Expr, AllocError>
    ensures { IfOk result (λ r. expr_view r ≡ table_call (text_bytes name.now) (expr_view at.value) (exprs_view (list_items arguments))) }
{
    let name = copied(alloc, name)?;
    Ok(Expr::TableCall(name, at, arguments))
}

#[inline(never)]
#[tactic(auto, using(crate::proofs::Erasing::expressions))]
pub(crate) fn assignment(alloc: Global, name: &Text, value: Box<Expr>) -> Result<Expr, AllocError>
    ensures { IfOk result (λ r. expr_view r ≡ assign (text_bytes name.now) (expr_view value.value)) }
{
    let name = copied(alloc, name)?;
    Ok(Expr::Assign(name, value))
}

#[inline(never)]
#[tactic(auto, using(crate::proofs::Erasing::expressions))]
pub(crate) fn store(
    alloc: Global,
    name: &Text,
    at: Box<Expr>,
    value: Box<Expr>,
) -> Result<Expr, AllocError>
    ensures { IfOk result (λ r. expr_view r ≡ store (text_bytes name.now) (expr_view at.value) (expr_view value.value)) }
{
    let name = copied(alloc, name)?;
    Ok(Expr::Store(name, at, value))
}
