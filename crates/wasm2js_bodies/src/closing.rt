//! Blocks as statements, and the end of a body.
ghost use Rattle.std.specs.Prelude.{◌≡◌, ◌≤◌, ◌∷◌, [], ◌++◌, ℕ, Some, None, vec_len, IfOk, if◌then◌else◌};
ghost use Rattle.asm_lang.specs.Modules as plain;
ghost use Rattle.wasm_lang.specs.declared.types.ValType.TheVariants.{I32};
ghost use Rattle.wasm_lang_valid.specs.Typing.{Context, listed};
ghost use Rattle.wasm2js_translation.specs.Bodies as bodies;
ghost use Rattle.wasm2js_translation.specs.Helpers as helpers;
ghost use Rattle.wasm2js_translation.specs.Words.{test_of};
ghost use Rattle.wasm2js_terms.specs.Held.{word_view};
ghost use Rattle.wasm2js_build.specs.Blocks.{statements_of};
ghost use Rattle.wasm2js_jumps.specs.Aims.{aim_view, aims_view};
ghost use Rattle.wasm2js_operands.specs.Operands.{over, IsKept};
ghost use Rattle.asm_tree.specs.Views.{stmt_view};

use asm_tree::Stmt;
use std::alloc::{AllocError, Global};
use wasm_lang::ValType;
use wasm2js_build::{Block, condition};
use wasm2js_jumps::{Aim, bare_break, block_of, chosen, endless, labelled, leave_with};
use wasm2js_nodes::{Name, Numbered};
use wasm2js_operands::add;
use wasm2js_terms::Word;

/// What a branch past a block does that begins above these operands.
pub fn past(types: &Vec<ValType>, result_type: Option<ValType>) -> Aim
    ensures { aim_view result ≡ bodies.past (vec_len types.now) result_type }
{
    Aim::Past {
        base: types.len() as u64,
        result: result_type,
    }
}

/// What a branch to a loop does that begins above these operands.
pub fn again(types: &Vec<ValType>) -> Aim
    ensures { aim_view result ≡ bodies.again (vec_len types.now) }
{
    Aim::Again {
        base: types.len() as u64,
    }
}

/// One more aim, which is the innermost.
pub fn enter(aims: &mut Vec<Aim>, aim: Aim) -> Result<(), AllocError>
    ensures { IfOk result (λ _. aims.new.items ≡ aims.old.items ++ aim ∷ []) }
{
    match aims.push(aim) {
        Ok(()) => Ok(()),
        Err(_) => Err(AllocError),
    }
}

// A statement under the label that the innermost block gets.
fn put_labelled(
    alloc: Global,
    aims: &[Aim],
    stmt: Stmt,
    block: &mut Block,
) -> Result<(), AllocError>
    ensures { IfOk result (λ _. statements_of block.new ≡ statements_of block.old ++ bodies.under_label (bodies.labels_round (aims_view aims.now)) (stmt_view stmt) ∷ []) }
{
    let count = aims.len();
    let round = if count == 0 { 0 } else { count - 1 };
    let stmt = labelled(alloc, Name::Counted(Numbered::Label, round as u64), stmt)?;
    block.push(stmt)
}

// A block with these statements inside.
fn put_block(alloc: Global, aims: &[Aim], inner: Block, block: &mut Block) -> Result<(), AllocError>
    ensures { IfOk result (λ _. statements_of block.new ≡ statements_of block.old ++ bodies.under_label (bodies.labels_round (aims_view aims.now)) (helpers.block_of (statements_of inner)) ∷ []) }
{
    put_labelled(alloc, aims, block_of(inner), block)
}

// The body of a loop leaves it at its end, where that is reached.
fn put_leaving(reached: bool, inner: &mut Block) -> Result<(), AllocError>
    ensures { IfOk result (λ _. statements_of inner.new ≡ statements_of inner.old ++ (if reached then plain.breaks None ∷ [] else [])) }
{
    if reached {
        inner.push(bare_break())
    } else {
        Ok(())
    }
}

// A loop with these statements inside.
fn put_loop(alloc: Global, aims: &[Aim], inner: Block, block: &mut Block) -> Result<(), AllocError>
    ensures { IfOk result (λ _. statements_of block.new ≡ statements_of block.old ++ bodies.under_label (bodies.labels_round (aims_view aims.now)) (bodies.endless (statements_of inner)) ∷ []) }
{
    let stmt = endless(alloc, inner)?;
    put_labelled(alloc, aims, stmt, block)
}

// An `if` by a word, with these statements in its arms.
fn put_if(
    alloc: Global,
    aims: &[Aim],
    word: Word,
    first: Block,
    second: Block,
    block: &mut Block,
) -> Result<(), AllocError>
    ensures { IfOk result (λ _. statements_of block.new ≡ statements_of block.old ++ bodies.under_label (bodies.labels_round (aims_view aims.now)) (bodies.chosen (test_of (word_view word)) (statements_of first) (statements_of second)) ∷ []) }
{
    let test = condition(alloc, word)?;
    let stmt = chosen(alloc, test, first, second)?;
    put_labelled(alloc, aims, stmt, block)
}

/// The result of a block or of a call.
pub fn give(
    types: &mut Vec<ValType>,
    base: usize,
    result_type: Option<ValType>,
) -> Result<(), AllocError>
    requires { base ≤ vec_len types.old }
    ensures kept { IfOk result (λ _. IsKept base types.old.items types.new.items) }
    ensures types { IfOk result (λ _. over base types.new.items ≡ listed result_type ++ over base types.old.items) }
{
    match result_type {
        None => Ok(()),
        Some(value_type) => {
            add(types, base, value_type)?;
            Ok(())
        }
    }
}

/// A block with these statements inside, and its result.
pub fn close_block(
    alloc: Global,
    aims: &Vec<Aim>,
    types: &mut Vec<ValType>,
    base: usize,
    result_type: Option<ValType>,
    inner: Block,
    block: &mut Block,
) -> Result<(), AllocError>
    requires { base ≤ vec_len types.old }
    ensures kept { IfOk result (λ _. IsKept base types.old.items types.new.items) }
    ensures types { IfOk result (λ _. over base types.new.items ≡ listed result_type ++ over base types.old.items) }
    ensures statements { IfOk result (λ _. statements_of block.new ≡ statements_of block.old ++ bodies.under_label (bodies.labels_round (aims_view aims.now.items)) (helpers.block_of (statements_of inner)) ∷ []) }
{
    put_block(alloc, aims, inner, block)?;
    give(types, base, result_type)?;
    Ok(())
}

/// A loop with these statements inside, whose end may be reached, and its result.
pub fn close_loop(
    alloc: Global,
    aims: &Vec<Aim>,
    types: &mut Vec<ValType>,
    base: usize,
    result_type: Option<ValType>,
    mut inner: Block,
    reached: bool,
    block: &mut Block,
) -> Result<(), AllocError>
    requires { base ≤ vec_len types.old }
    ensures kept { IfOk result (λ _. IsKept base types.old.items types.new.items) }
    ensures types { IfOk result (λ _. over base types.new.items ≡ listed result_type ++ over base types.old.items) }
    ensures statements { IfOk result (λ _. statements_of block.new ≡ statements_of block.old ++ bodies.under_label (bodies.labels_round (aims_view aims.now.items)) (bodies.endless (statements_of inner ++ (if reached then plain.breaks None ∷ [] else []))) ∷ []) }
{
    put_leaving(reached, &mut inner)?;
    put_loop(alloc, aims, inner, block)?;
    give(types, base, result_type)?;
    Ok(())
}

/// An `if` by a word, with these statements in its arms, and its result.
pub fn close_if(
    alloc: Global,
    aims: &Vec<Aim>,
    types: &mut Vec<ValType>,
    base: usize,
    result_type: Option<ValType>,
    word: Word,
    first: Block,
    second: Block,
    block: &mut Block,
) -> Result<(), AllocError>
    requires { base ≤ vec_len types.old }
    ensures kept { IfOk result (λ _. IsKept base types.old.items types.new.items) }
    ensures types { IfOk result (λ _. over base types.new.items ≡ listed result_type ++ over base types.old.items) }
    ensures statements { IfOk result (λ _. statements_of block.new ≡ statements_of block.old ++ bodies.under_label (bodies.labels_round (aims_view aims.now.items)) (bodies.chosen (test_of (word_view word)) (statements_of first) (statements_of second)) ∷ []) }
{
    put_if(alloc, aims, word, first, second, block)?;
    give(types, base, result_type)?;
    Ok(())
}

// The end of a function that gives a word of 32 bits.
fn close_word(alloc: Global, reached: bool, block: &mut Block) -> Result<(), AllocError>
    ensures { (bytes cells : ℕ) (c : Context) → IfOk result (λ _. statements_of block.new ≡ statements_of block.old ++ bodies.closing bytes cells c (Some I32) reached) }
{
    if reached {
        Ok(())
    } else {
        leave_with(alloc, Some(ValType::I32), 0, block)
    }
}

// The end of a function that gives a word of this type.
fn close_with(
    alloc: Global,
    value_type: ValType,
    reached: bool,
    block: &mut Block,
) -> Result<(), AllocError>
    ensures { (bytes cells : ℕ) (c : Context) → IfOk result (λ _. statements_of block.new ≡ statements_of block.old ++ bodies.closing bytes cells c (Some value_type) reached) }
{
    match value_type {
        ValType::I32 => close_word(alloc, reached, block),
        ValType::I64 => leave_with(alloc, Some(value_type), 0, block),
    }
}

/// The end of the body of a function, which may be reached.
pub fn close(
    alloc: Global,
    returns: Option<ValType>,
    reached: bool,
    block: &mut Block,
) -> Result<(), AllocError>
    ensures { (bytes cells : ℕ) (c : Context) → IfOk result (λ _. statements_of block.new ≡ statements_of block.old ++ bodies.closing bytes cells c returns reached) }
{
    match returns {
        None => Ok(()),
        Some(value_type) => close_with(alloc, value_type, reached, block),
    }
}
