//! Statements of asm.js, one node after another.
ghost use Rattle.std.specs.Prelude.{◌≡◌, [], ◌∷◌, ◌++◌, List, map, length, Some, None, IfOk};
ghost use Rattle.sem_words.specs.Lists.{list_items};
ghost use Rattle.asm_lang.specs.Modules as plain;
ghost use Rattle.asm_tree.specs.Views.{expr_view, stmt_view, param_view, local_view};
ghost use Rattle.wasm2js_translation.specs.Words.{stmts_in, signed_number, is_flat, stands_alone, part_of};
ghost use Rattle.wasm2js_translation.specs.Helpers as helpers;
ghost use Rattle.wasm2js_nodes.specs.Names.{name_view};

use crate::names::Name;
use crate::nodes::signed;
use crate::spelling::spell;
use asm_tree::{Expr, Init, Local, Param, Stmt};
use sem_words::List;
use std::alloc::{AllocError, Global};

#[inline(never)]
fn boxed(alloc: Global, statement: Stmt) -> Result<Box<Stmt>, AllocError>
    ensures { IfOk result (λ r. r.value ≡ statement) }
{
    match Box::new(alloc, statement) {
        Ok(statement) => Ok(statement),
        Err(_) => Err(AllocError),
    }
}

/// `{..}`
#[tactic(auto, using(crate::proofs::Lists::block_is))]
pub fn block_statement(statements: List<Stmt>) -> Stmt
    ensures { stmt_view result ≡ plain.block (stmts_in (map stmt_view (list_items statements))) }
{
    Stmt::Block(statements)
}

// Whether a statement holds no other.
#[tactic(auto, using(asm_tree::proofs::Views::views))]
fn holds_no_other(statement: &Stmt) -> bool
    ensures { result ≡ is_flat (stmt_view statement.now) }
{
    match statement {
        Stmt::Plain(_) | Stmt::Break(_) | Stmt::Continue(_) | Stmt::Return(_) => true,
        Stmt::If(_, None, _) => false,
        Stmt::If(_, Some(_), _) => false,
        Stmt::Block(_)
        | Stmt::Empty
        | Stmt::While(_, _)
        | Stmt::DoWhile(_, _)
        | Stmt::For(_, _)
        | Stmt::Labelled(_, _)
        | Stmt::Switch(_, _) => false,
    }
}

fn is_one_alone(statements: &[Stmt]) -> bool
    ensures { result ≡ stands_alone (map stmt_view statements.now) }
{
    if statements.len() == 1 {
        holds_no_other(&statements[0])
    } else {
        false
    }
}

// The one statement.
fn only(statements: List<Stmt>) -> Stmt
    requires { length (list_items statements) ≡ 1 }
    ensures { list_items statements ≡ result ∷ [] }
{
    let mut statements = statements.into_vec();
    match statements.pop() {
        Some(statement) => statement,
        None => Stmt::Empty,
    }
}

/// The statements as a part of an `if`: one that holds no other stands alone, and others in `{..}`.
#[tactic(auto, using(crate::proofs::Lists::alone_is, crate::proofs::Lists::others_are, crate::proofs::Lists::one_there))]
pub fn part_statement(statements: List<Stmt>) -> Stmt
    ensures { stmt_view result ≡ part_of (map stmt_view (list_items statements)) }
{
    if is_one_alone(statements.as_slice()) {
        only(statements)
    } else {
        block_statement(statements)
    }
}

/// `if(test)statement`
#[inline(never)]
#[tactic(auto, using(asm_tree::proofs::Views::views))]
pub fn if_only(alloc: Global, test: Expr, statement: Stmt) -> Result<Stmt, AllocError>
    ensures { IfOk result (λ s. stmt_view s ≡ plain.if_only (expr_view test) (stmt_view statement)) }
{
    let statement = boxed(alloc, statement)?;
    Ok(Stmt::If(statement, None, test))
}

/// `if(test)first else second`
#[inline(never)]
#[tactic(auto, using(asm_tree::proofs::Views::views))]
pub fn if_else(alloc: Global, test: Expr, first: Stmt, second: Stmt) -> Result<Stmt, AllocError>
    ensures { IfOk result (λ s. stmt_view s ≡ plain.if_else (expr_view test) (stmt_view first) (stmt_view second)) }
{
    let first = boxed(alloc, first)?;
    let second = boxed(alloc, second)?;
    Ok(Stmt::If(first, Some(second), test))
}

/// `while(test)statement`
#[inline(never)]
#[tactic(auto, using(asm_tree::proofs::Views::views))]
pub fn while_loop(alloc: Global, test: Expr, statement: Stmt) -> Result<Stmt, AllocError>
    ensures { IfOk result (λ s. stmt_view s ≡ plain.while_loop (expr_view test) (stmt_view statement)) }
{
    let statement = boxed(alloc, statement)?;
    Ok(Stmt::While(test, statement))
}

/// `return value;`
#[tactic(auto, using(asm_tree::proofs::Views::views))]
pub fn returns(value: Expr) -> Stmt
    ensures { stmt_view result ≡ plain.returns (Some (expr_view value)) }
{
    Stmt::Return(Some(value))
}

/// `return;`
#[tactic(auto, using(asm_tree::proofs::Views::views))]
pub fn returns_nothing() -> Stmt
    ensures { stmt_view result ≡ plain.returns None }
{
    Stmt::Return(None)
}

/// `return value|0;`
pub fn gives(alloc: Global, value: Expr) -> Result<Stmt, AllocError>
    ensures { IfOk result (λ s. stmt_view s ≡ plain.returns (Some (signed_number (expr_view value)))) }
{
    let value = signed(alloc, value)?;
    Ok(returns(value))
}

/// Int parameters of these names.
pub fn params_of(alloc: Global, names: &[Name]) -> Result<List<Param>, AllocError>
    ensures { IfOk result (λ ps. map param_view (list_items ps) ≡ map helpers.int_param (map name_view names.now)) }
{
    let mut params = List::new(alloc);
    for name in names {
        params = with_param(alloc, params, *name)?;
    }
    Ok(params)
}

#[inline(never)]
fn with_param(alloc: Global, params: List<Param>, name: Name) -> Result<List<Param>, AllocError>
    ensures { IfOk result (λ ps. map param_view (list_items ps) ≡ map param_view (list_items params) ++ helpers.int_param (name_view name) ∷ []) }
{
    let name = spell(alloc, name)?;
    let mut params = params;
    match params.push(Param {
        name,
        double: false,
    }) {
        Ok(()) => Ok(params),
        Err(_) => Err(AllocError),
    }
}

/// Int variables of these names, which begin with 0.
pub fn locals_of(alloc: Global, names: &[Name]) -> Result<List<Local>, AllocError>
    ensures { IfOk result (λ ls. map local_view (list_items ls) ≡ map helpers.zero_variable (map name_view names.now)) }
{
    let mut locals = List::new(alloc);
    for name in names {
        locals = with_local(alloc, locals, *name)?;
    }
    Ok(locals)
}

#[inline(never)]
fn with_local(alloc: Global, locals: List<Local>, name: Name) -> Result<List<Local>, AllocError>
    ensures { IfOk result (λ ls. map local_view (list_items ls) ≡ map local_view (list_items locals) ++ helpers.zero_variable (name_view name) ∷ []) }
{
    let name = spell(alloc, name)?;
    let mut locals = locals;
    let local = Local {
        name,
        init: Init::Number(0),
    };
    match locals.push(local) {
        Ok(()) => Ok(locals),
        Err(_) => Err(AllocError),
    }
}
