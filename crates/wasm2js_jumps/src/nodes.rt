//! Statements and expressions of asm.js, one node each.
ghost use Rattle.std.specs.Prelude.{◌≡◌, [], ◌∷◌, Some, None, IfOk};
ghost use Rattle.sem_words.specs.Lists.{list_items};
ghost use Rattle.sem_words.specs.declared.js_value.JsOp.TheVariants.{And};
ghost use Rattle.asm_lang.specs.Modules as plain;
ghost use Rattle.asm_tree.specs.Views.{expr_view, exprs_view, stmt_view, clauses_view};
ghost use Rattle.wasm2js_translation.specs.Names.{spelled};
ghost use Rattle.wasm2js_translation.specs.Helpers as helpers;
ghost use Rattle.wasm2js_translation.specs.Words as words;
ghost use Rattle.wasm2js_translation.specs.Bodies as bodies;
ghost use Rattle.wasm2js_nodes.specs.Names.{name_view};
ghost use Rattle.wasm2js_build.specs.Blocks.{statements_of};

use asm_tree::{Clause, Expr, Stmt};
use sem_words::{JsOp, List, Text};
use std::alloc::{AllocError, Global};
use wasm2js_build::Block;
use wasm2js_nodes::{Name, natural, spell};

fn boxed(alloc: Global, stmt: Stmt) -> Result<Box<Stmt>, AllocError>
    ensures { IfOk result (λ b. b.value ≡ stmt) }
{
    match Box::new(alloc, stmt) {
        Ok(b) => Ok(b),
        Err(_) => Err(AllocError),
    }
}

fn boxed_expr(alloc: Global, e: Expr) -> Result<Box<Expr>, AllocError>
    ensures { IfOk result (λ b. b.value ≡ e) }
{
    match Box::new(alloc, e) {
        Ok(b) => Ok(b),
        Err(_) => Err(AllocError),
    }
}

/// `{..}`
#[tactic(auto, using(asm_tree::proofs::Views::views, crate::proofs::Lists::same_stmts))]
pub fn block_of(block: Block) -> Stmt
    ensures { stmt_view result ≡ helpers.block_of (statements_of block) }
{
    Stmt::Block(block.into_list())
}

/// `break label;`
#[tactic(auto, using(asm_tree::proofs::Views::views))]
pub fn break_to(alloc: Global, label: Name) -> Result<Stmt, AllocError>
    ensures { IfOk result (λ s. stmt_view s ≡ plain.breaks (Some (spelled (name_view label)))) }
{
    let text = spell(alloc, label)?;
    Ok(Stmt::Break(Some(text)))
}

/// `break;`
#[tactic(auto, using(asm_tree::proofs::Views::views))]
pub fn bare_break() -> Stmt
    ensures { stmt_view result ≡ plain.breaks None }
{
    Stmt::Break(None)
}

/// `continue label;`
#[tactic(auto, using(asm_tree::proofs::Views::views))]
pub fn continue_to(alloc: Global, label: Name) -> Result<Stmt, AllocError>
    ensures { IfOk result (λ s. stmt_view s ≡ plain.continues (Some (spelled (name_view label)))) }
{
    let text = spell(alloc, label)?;
    Ok(Stmt::Continue(Some(text)))
}

fn one_text(alloc: Global, text: Text) -> Result<List<Text>, AllocError>
    ensures { IfOk result (λ r. list_items r ≡ text ∷ []) }
{
    let mut texts = List::new(alloc);
    match texts.push(text) {
        Ok(()) => Ok(texts),
        Err(_) => Err(AllocError),
    }
}

/// `label: stmt`
#[tactic(auto, using(asm_tree::proofs::Views::views))]
pub fn labelled(alloc: Global, label: Name, stmt: Stmt) -> Result<Stmt, AllocError>
    ensures { IfOk result (λ s. stmt_view s ≡ plain.labelled (spelled (name_view label) ∷ []) (stmt_view stmt)) }
{
    let inner = boxed(alloc, stmt)?;
    let text = spell(alloc, label)?;
    let texts = one_text(alloc, text)?;
    Ok(Stmt::Labelled(texts, inner))
}

/// `if(test) yes`
#[tactic(auto, using(asm_tree::proofs::Views::views))]
pub fn if_only(alloc: Global, test: Expr, yes: Stmt) -> Result<Stmt, AllocError>
    ensures { IfOk result (λ s. stmt_view s ≡ plain.if_only (expr_view test) (stmt_view yes)) }
{
    let yes = boxed(alloc, yes)?;
    Ok(Stmt::If(yes, None, test))
}

// `if(test) yes else no`
#[tactic(auto, using(asm_tree::proofs::Views::views))]
fn if_else(alloc: Global, test: Expr, yes: Stmt, no: Stmt) -> Result<Stmt, AllocError>
    ensures { IfOk result (λ s. stmt_view s ≡ plain.if_else (expr_view test) (stmt_view yes) (stmt_view no)) }
{
    let yes = boxed(alloc, yes)?;
    let no = boxed(alloc, no)?;
    Ok(Stmt::If(yes, Some(no), test))
}

/// The statements as a part of an `if`.
pub fn part_of(block: Block) -> Stmt
    ensures { stmt_view result ≡ words.part_of (statements_of block) }
{
    block.into_part()
}

/// `if(test)first else second`, without the `else` where nothing would stand behind it.
#[tactic(auto, using(crate::proofs::Lists::chosen_else))]
pub fn chosen(alloc: Global, test: Expr, first: Block, second: Block) -> Result<Stmt, AllocError>
    ensures { IfOk result (λ s. stmt_view s ≡ bodies.chosen (expr_view test) (statements_of first) (statements_of second)) }
{
    if second.is_empty() {
        if_only(alloc, test, part_of(first))
    } else {
        if_else(alloc, test, part_of(first), part_of(second))
    }
}

/// `while(1){..}`
#[tactic(auto, using(asm_tree::proofs::Views::views))]
pub fn endless(alloc: Global, block: Block) -> Result<Stmt, AllocError>
    ensures { IfOk result (λ s. stmt_view s ≡ bodies.endless (statements_of block)) }
{
    let inner = boxed(alloc, block_of(block))?;
    Ok(Stmt::While(natural(1), inner))
}

/// `return;`
#[tactic(auto, using(asm_tree::proofs::Views::views))]
pub(crate) fn leave() -> Stmt
    ensures { stmt_view result ≡ plain.returns None }
{
    Stmt::Return(None)
}

/// `return value;`
#[tactic(auto, using(asm_tree::proofs::Views::views))]
pub(crate) fn give(value: Expr) -> Stmt
    ensures { stmt_view result ≡ plain.returns (Some (expr_view value)) }
{
    Stmt::Return(Some(value))
}

/// `e;`
#[tactic(auto, using(asm_tree::proofs::Views::views))]
pub(crate) fn effect(e: Expr) -> Stmt
    ensures { stmt_view result ≡ plain.plain (expr_view e) }
{
    Stmt::Plain(e)
}

#[tactic(auto, using(asm_tree::proofs::Views::views))]
pub(crate) fn switch(subject: Expr, clauses: List<Clause>) -> Stmt
    ensures { stmt_view result ≡ plain.switches (expr_view subject) (clauses_view (list_items clauses)) }
{
    Stmt::Switch(clauses, subject)
}

/// `a&b`
#[tactic(auto, using(asm_tree::proofs::Views::views))]
pub(crate) fn masked(alloc: Global, a: Expr, b: Expr) -> Result<Expr, AllocError>
    ensures { IfOk result (λ e. expr_view e ≡ plain.binary And (expr_view a) (expr_view b)) }
{
    let a = boxed_expr(alloc, a)?;
    let b = boxed_expr(alloc, b)?;
    Ok(Expr::Binary(JsOp::And, a, b))
}

/// `table[index](arguments)`
#[tactic(auto, using(asm_tree::proofs::Views::views))]
pub(crate) fn table_call(
    alloc: Global,
    table: Name,
    index: Expr,
    arguments: List<Expr>,
) -> Result<Expr, AllocError>
    ensures { IfOk result (λ e. expr_view e ≡ plain.table_call (spelled (name_view table)) (expr_view index) (exprs_view (list_items arguments))) }
{
    let index = boxed_expr(alloc, index)?;
    let text = spell(alloc, table)?;
    Ok(Expr::TableCall(text, index, arguments))
}
