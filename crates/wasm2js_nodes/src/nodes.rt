//! Expressions of asm.js, one node after another.
ghost use Rattle.std.specs.Prelude.{◌≡◌, [], ◌∷◌, ◌++◌, List, IfOk};
ghost use Rattle.sem_words.specs.Lists.{list_items};
ghost use Rattle.asm_lang.specs.Modules as plain;
ghost use Rattle.asm_tree.specs.Views.{expr_view, exprs_view, links_view, stmt_view};
ghost use Rattle.sem_words.specs.declared.js_value.JsUnary.TheVariants as js_unary;
ghost use Rattle.wasm2js_translation.specs.Names.{spelled};
ghost use Rattle.wasm2js_translation.specs.Words as words;
ghost use Rattle.wasm2js_nodes.specs.Names.{name_view};

use crate::names::{Fixed, Name};
use crate::spelling::spell;
use asm_tree::{Expr, Link, Stmt};
use sem_words::{JsOp, JsUnary, List};
use std::alloc::{AllocError, Global};

/// A number.
#[tactic(auto, using(asm_tree::proofs::Views::views))]
pub fn natural(value: u64) -> Expr
    ensures { expr_view result ≡ words.natural value }
{
    Expr::Lit(value as i128)
}

/// A literal.
#[tactic(auto, using(asm_tree::proofs::Views::views))]
pub fn literal(value: i64) -> Expr
    ensures { expr_view result ≡ plain.lit value }
{
    Expr::Lit(value as i128)
}

/// A variable.
#[tactic(auto, using(asm_tree::proofs::Views::views))]
pub fn variable(alloc: Global, name: Name) -> Result<Expr, AllocError>
    ensures { IfOk result (λ e. expr_view e ≡ plain.var (spelled (name_view name))) }
{
    let name = spell(alloc, name)?;
    Ok(Expr::Var(name))
}

/// `e|0`
pub fn signed(alloc: Global, e: Expr) -> Result<Expr, AllocError>
    ensures { IfOk result (λ r. expr_view r ≡ words.signed_number (expr_view e)) }
{
    binary(alloc, JsOp::Or, e, natural(0))
}

/// `e>>>0`
pub fn unsigned(alloc: Global, e: Expr) -> Result<Expr, AllocError>
    ensures { IfOk result (λ r. expr_view r ≡ words.plain_number (expr_view e)) }
{
    binary(alloc, JsOp::Shr, e, natural(0))
}

/// `e>>places`
pub fn shifted(alloc: Global, e: Expr, places: u64) -> Result<Expr, AllocError>
    ensures { IfOk result (λ r. expr_view r ≡ words.indexed places (expr_view e)) }
{
    binary(alloc, JsOp::Sar, e, natural(places))
}

#[inline(never)]
pub(crate) fn boxed(alloc: Global, e: Expr) -> Result<Box<Expr>, AllocError>
    ensures { IfOk result (λ r. r.value ≡ e) }
{
    match Box::new(alloc, e) {
        Ok(e) => Ok(e),
        Err(_) => Err(AllocError),
    }
}

/// A binary operation.
#[inline(never)]
#[tactic(auto, using(asm_tree::proofs::Views::views))]
pub fn binary(alloc: Global, operator: JsOp, left: Expr, right: Expr) -> Result<Expr, AllocError>
    ensures { IfOk result (λ r. expr_view r ≡ plain.binary operator (expr_view left) (expr_view right)) }
{
    let left = boxed(alloc, left)?;
    let right = boxed(alloc, right)?;
    Ok(Expr::Binary(operator, left, right))
}

#[inline(never)]
#[tactic(auto, using(asm_tree::proofs::Views::views))]
pub fn flipped(alloc: Global, e: Expr) -> Result<Expr, AllocError>
    ensures { IfOk result (λ r. expr_view r ≡ plain.unary js_unary.BitNot (expr_view e)) }
{
    let e = boxed(alloc, e)?;
    Ok(Expr::Unary(JsUnary::BitNot, e))
}

#[inline(never)]
#[tactic(auto, using(asm_tree::proofs::Views::views))]
pub fn chosen(alloc: Global, test: Expr, first: Expr, second: Expr) -> Result<Expr, AllocError>
    ensures { IfOk result (λ r. expr_view r ≡ plain.cond (expr_view test) (expr_view first) (expr_view second)) }
{
    let test = boxed(alloc, test)?;
    let first = boxed(alloc, first)?;
    let second = boxed(alloc, second)?;
    Ok(Expr::Cond(test, first, second))
}

#[inline(never)]
#[tactic(auto, using(asm_tree::proofs::Views::views))]
pub fn chain(alloc: Global, first: Expr, links: List<Link>) -> Result<Expr, AllocError>
    ensures { IfOk result (λ r. expr_view r ≡ plain.chain (expr_view first) (links_view (list_items links))) }
{
    let first = boxed(alloc, first)?;
    Ok(Expr::Chain(first, links))
}

/// An element of a view.
#[inline(never)]
#[tactic(auto, using(asm_tree::proofs::Views::views))]
pub fn element(alloc: Global, view: Name, at: Expr) -> Result<Expr, AllocError>
    ensures { IfOk result (λ r. expr_view r ≡ plain.index (spelled (name_view view)) (expr_view at)) }
{
    let view = spell(alloc, view)?;
    let at = boxed(alloc, at)?;
    Ok(Expr::Index(view, at))
}

/// `name(arguments)`
#[inline(never)]
#[tactic(auto, using(asm_tree::proofs::Views::views))]
pub fn call(alloc: Global, name: Name, arguments: List<Expr>) -> Result<Expr, AllocError>
    ensures { IfOk result (λ e. expr_view e ≡ plain.call (spelled (name_view name)) (exprs_view (list_items arguments))) }
{
    let name = spell(alloc, name)?;
    Ok(Expr::Call(name, arguments))
}

/// The list with one more item at its end.
#[inline(never)]
pub fn with_expr(list: List<Expr>, e: Expr) -> Result<List<Expr>, AllocError>
    ensures { IfOk result (λ r. list_items r ≡ list_items list ++ e ∷ []) }
{
    let mut list = list;
    match list.push(e) {
        Ok(()) => Ok(list),
        Err(_) => Err(AllocError),
    }
}

/// `name(argument)`
#[inline(never)]
pub fn call_of_one(alloc: Global, name: Name, argument: Expr) -> Result<Expr, AllocError>
    ensures { IfOk result (λ e. expr_view e ≡ plain.call (spelled (name_view name)) (plain.exprs (expr_view argument) plain.no_exprs)) }
{
    let arguments = with_expr(List::with_capacity(alloc, 1)?, argument)?;
    call(alloc, name, arguments)
}

/// `name(first,second)`
#[inline(never)]
pub fn call_of_two(alloc: Global, name: Name, first: Expr, second: Expr) -> Result<Expr, AllocError>
    ensures { IfOk result (λ e. expr_view e ≡ plain.call (spelled (name_view name)) (plain.exprs (expr_view first) (plain.exprs (expr_view second) plain.no_exprs))) }
{
    let arguments = with_expr(List::with_capacity(alloc, 2)?, first)?;
    let arguments = with_expr(arguments, second)?;
    call(alloc, name, arguments)
}

/// The statement of an expression.
#[tactic(auto, using(asm_tree::proofs::Views::views))]
pub fn plainly(e: Expr) -> Stmt
    ensures { stmt_view result ≡ plain.plain (expr_view e) }
{
    Stmt::Plain(e)
}

/// `name=value;`
#[inline(never)]
#[tactic(auto, using(asm_tree::proofs::Views::views))]
pub fn put_in(alloc: Global, name: Name, value: Expr) -> Result<Stmt, AllocError>
    ensures { IfOk result (λ s. stmt_view s ≡ words.put_in (name_view name) (expr_view value)) }
{
    let name = spell(alloc, name)?;
    let value = boxed(alloc, value)?;
    Ok(Stmt::Plain(Expr::Assign(name, value)))
}

/// `view[at]=value;`
#[inline(never)]
#[tactic(auto, using(asm_tree::proofs::Views::views))]
pub fn store_in(alloc: Global, view: Name, at: Expr, value: Expr) -> Result<Stmt, AllocError>
    ensures { IfOk result (λ s. stmt_view s ≡ plain.plain (plain.store (spelled (name_view view)) (expr_view at) (expr_view value))) }
{
    let view = spell(alloc, view)?;
    let at = boxed(alloc, at)?;
    let value = boxed(alloc, value)?;
    Ok(Stmt::Plain(Expr::Store(view, at, value)))
}

/// `$trap(kind);`
pub fn trap_call(alloc: Global, kind: u32) -> Result<Stmt, AllocError>
    ensures { IfOk result (λ s. stmt_view s ≡ words.trap_call kind) }
{
    let e = call_of_one(alloc, Name::Always(Fixed::Trap), natural(kind as u64))?;
    Ok(plainly(e))
}
