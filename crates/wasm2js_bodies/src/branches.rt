//! Branches, returns and the end of code, with the operands of the innermost block.
ghost use Rattle.std.specs.Prelude.{◌≡◌, ◌≤◌, ◌∷◌, [], ◌++◌, Some, drop, vec_len, IfOk};
ghost use Rattle.wasm_lang.specs.declared.types.ValType.TheVariants.{I32};
ghost use Rattle.asm_lang.specs.Modules as plain;
ghost use Rattle.wasm2js_translation.specs.Actions as actions;
ghost use Rattle.wasm2js_translation.specs.Actions.{low};
ghost use Rattle.wasm2js_translation.specs.Bodies as bodies;
ghost use Rattle.wasm2js_translation.specs.Delays.{written};
ghost use Rattle.wasm2js_translation.specs.Words as words;
ghost use Rattle.wasm2js_nodes.specs.Names.{name_view};
ghost use Rattle.wasm2js_terms.specs.Held.{word_view};
ghost use Rattle.wasm2js_build.specs.Blocks.{statements_of};
ghost use Rattle.wasm2js_build.specs.Growing.{waits_of};
ghost use Rattle.wasm2js_jumps.specs.Aims.{aims_view};
ghost use Rattle.wasm2js_operands.specs.Operands.{over, IsKept};

use std::alloc::{AllocError, Global};
use wasm_lang::ValType;
use wasm2js_build::{Block, LateBlock, condition};
use wasm2js_jumps::{
    Aim, Jumps, by_index, give_at_hand, gives_word, if_only, jump, leave_with, part_of,
};
use wasm2js_nodes::{Name, Numbered};
use wasm2js_operands::{remove, under};
use wasm2js_terms::Word;

/// `br`
pub fn branch_to(
    alloc: Global,
    aims: &[Aim],
    types: &Vec<ValType>,
    base: usize,
    label: u32,
    block: &mut Block,
) -> Result<(), AllocError>
    requires { base ≤ vec_len types.now }
    ensures { IfOk result (λ _. statements_of block.new ≡ statements_of block.old ++ bodies.jump (aims_view aims.now) label base (over base types.now.items)) }
{
    jump(alloc, aims, label, under(types, base, 1), block)
}

/// The variable of the topmost operand's low word.
pub fn topmost(types: &Vec<ValType>, base: usize) -> Name
    requires { base ≤ vec_len types.now }
    ensures { name_view result ≡ low (actions.under 1 base (over base types.now.items)) }
{
    Name::Counted(Numbered::OperandLow, under(types, base, 1))
}

// The topmost operand, a word of 32 bits, to the caller.
fn give_word(
    alloc: Global,
    types: &Vec<ValType>,
    base: usize,
    text: &mut LateBlock,
) -> Result<(), AllocError>
    requires { base ≤ vec_len types.now }
    ensures { IfOk result (λ _. statements_of text.new.block ≡ statements_of text.old.block ++ bodies.leave_late (Some I32) (actions.under 1 base (over base types.now.items)) (waits_of text.old)) }
{
    let word = text.take_out(topmost(types, base));
    text.write_all()?;
    give_at_hand(alloc, word, &mut text.block)?;
    Ok(())
}

// The topmost operand to the caller, after all that waits is written.
fn give_written(
    alloc: Global,
    returns: Option<ValType>,
    types: &Vec<ValType>,
    base: usize,
    text: &mut LateBlock,
) -> Result<(), AllocError>
    requires { base ≤ vec_len types.now }
    ensures { IfOk result (λ _. statements_of text.new.block ≡ statements_of text.old.block ++ (words.simple_statements (written (waits_of text.old)) ++ bodies.leave_with returns (actions.under 1 base (over base types.now.items)))) }
{
    let depth = under(types, base, 1);
    text.write_all()?;
    leave_with(alloc, returns, depth, &mut text.block)?;
    Ok(())
}

/// `return`
pub fn give_back(
    alloc: Global,
    returns: Option<ValType>,
    types: &Vec<ValType>,
    base: usize,
    text: &mut LateBlock,
) -> Result<(), AllocError>
    requires { base ≤ vec_len types.now }
    ensures { IfOk result (λ _. statements_of text.new.block ≡ statements_of text.old.block ++ bodies.leave_late returns (actions.under 1 base (over base types.now.items)) (waits_of text.old)) }
{
    match returns {
        Some(ValType::I32) => give_word(alloc, types, base, text),
        None | Some(ValType::I64) => give_written(alloc, returns, types, base, text),
    }
}

/// The end of code, under these aims.
pub fn end_code(
    alloc: Global,
    aims: &[Aim],
    types: &Vec<ValType>,
    base: usize,
    text: &mut LateBlock,
) -> Result<(), AllocError>
    requires { base ≤ vec_len types.now }
    ensures { IfOk result (λ _. statements_of text.new.block ≡ statements_of text.old.block ++ bodies.ended (aims_view aims.now) base (over base types.now.items) (waits_of text.old)) }
{
    if gives_word(aims) {
        give_word(alloc, types, base, text)?;
        Ok(())
    } else {
        text.write_all()?;
        Ok(())
    }
}

fn put_if_only(alloc: Global, word: Word, inner: Block, block: &mut Block) -> Result<(), AllocError>
    ensures { IfOk result (λ _. statements_of block.new ≡ statements_of block.old ++ plain.if_only (words.test_of (word_view word)) (words.part_of (statements_of inner)) ∷ []) }
{
    let test = condition(alloc, word)?;
    let stmt = if_only(alloc, test, part_of(inner))?;
    block.push(stmt)
}

/// `br_if`, by the word that stands for the topmost operand.
pub fn branch_if(
    alloc: Global,
    aims: &[Aim],
    types: &mut Vec<ValType>,
    base: usize,
    label: u32,
    word: Word,
    block: &mut Block,
) -> Result<(), AllocError>
    requires { base ≤ vec_len types.old }
    ensures kept { IsKept base types.old.items types.new.items }
    ensures types { over base types.new.items ≡ drop 1 (over base types.old.items) }
    ensures value { IfOk result (λ _. statements_of block.new ≡ statements_of block.old ++ plain.if_only (words.test_of (word_view word)) (words.part_of (bodies.jump (aims_view aims.now) label base (drop 1 (over base types.old.items)))) ∷ []) }
{
    remove(types, base, 1);
    let mut inner = Block::new(alloc);
    branch_to(alloc, aims, types, base, label, &mut inner)?;
    put_if_only(alloc, word, inner, block)
}

/// `br_table`
pub fn branch_by_index(
    alloc: Global,
    aims: &[Aim],
    types: &mut Vec<ValType>,
    base: usize,
    labels: &[u32],
    default: u32,
    block: &mut Block,
) -> Result<(), AllocError>
    requires { base ≤ vec_len types.old }
    ensures kept { IsKept base types.old.items types.new.items }
    ensures value { IfOk result (λ _. statements_of block.new ≡ statements_of block.old ++ bodies.by_index (λ k. bodies.jump (aims_view aims.now) k base (drop 1 (over base types.old.items))) (bodies.signed_word (actions.under 1 base (over base types.old.items))) labels.now default) }
{
    let subject = under(types, base, 1);
    remove(types, base, 1);
    let jumps = Jumps {
        alloc,
        aims,
        depth: under(types, base, 1),
    };
    by_index(&jumps, subject, labels, default, block)?;
    Ok(())
}
