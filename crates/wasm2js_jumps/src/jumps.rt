//! Branches and returns.
ghost use Rattle.std.specs.Prelude.{◌≡◌, ◌∷◌, [], ◌++◌, Some, slice_get, option_map, IfOk};
ghost use Rattle.asm_lang.specs.Modules as plain;
ghost use Rattle.wasm2js_translation.specs.Bodies as bodies;
ghost use Rattle.wasm2js_translation.specs.Pairs.{moved, operand_pair};
ghost use Rattle.wasm2js_translation.specs.Names.{numbered, spelled};
ghost use Rattle.wasm2js_translation.specs.Words.{simple_statement, simple_statements, signed_number, expr, put, read};
ghost use Rattle.wasm2js_nodes.specs.Names.{name_view, numbered_view};
ghost use Rattle.wasm2js_terms.specs.Held.{word_view};
ghost use Rattle.wasm2js_build.specs.Blocks.{statements_of};
ghost use Rattle.wasm2js_jumps.specs.Aims.{aim_view, aims_view};

use crate::aims::{Aim, aim_at, label_of};
use crate::nodes::{break_to, continue_to, give, leave};
use crate::values::{keep_high, signed_word};
use std::alloc::{AllocError, Global};
use wasm_lang::ValType;
use wasm2js_build::{Block, result_number};
use wasm2js_nodes::{Name, Numbered};
use wasm2js_terms::{Term, Word};

fn give_word(alloc: Global, depth: u64, block: &mut Block) -> Result<(), AllocError>
    ensures { IfOk result (λ _. statements_of block.new ≡ statements_of block.old ++ plain.returns (Some (bodies.signed_word depth)) ∷ []) }
{
    let value = signed_word(alloc, depth)?;
    block.push(give(value))
}

/// The operand above so many others is given to the caller.
pub fn leave_with(
    alloc: Global,
    result_type: Option<ValType>,
    depth: u64,
    block: &mut Block,
) -> Result<(), AllocError>
    ensures { IfOk result (λ _. statements_of block.new ≡ statements_of block.old ++ bodies.leave_with result_type depth) }
{
    match result_type {
        None => block.push(leave()),
        Some(ValType::I32) => give_word(alloc, depth, block),
        Some(ValType::I64) => {
            keep_high(alloc, depth, block)?;
            give_word(alloc, depth, block)
        }
    }
}

/// A word that stands for a variable is given to the caller.
pub fn give_at_hand(alloc: Global, word: Word, block: &mut Block) -> Result<(), AllocError>
    ensures { IfOk result (λ _. statements_of block.new ≡ statements_of block.old ++ plain.returns (Some (signed_number (expr (word_view word)))) ∷ []) }
{
    let value = result_number(alloc, word)?;
    block.push(give(value))
}

fn move_word(kind: Numbered, from: u64, to: u64, block: &mut Block) -> Result<(), AllocError>
    ensures { IfOk result (λ _. statements_of block.new ≡ statements_of block.old ++ simple_statement (put (numbered (numbered_view kind) to) (read (numbered (numbered_view kind) from))) ∷ []) }
{
    let value = Term::read(Name::Counted(kind, from));
    block.put(Name::Counted(kind, to), &value)
}

// The operand of one number to where that of another one stands.
fn move_operand(
    value_type: ValType,
    from: u64,
    to: u64,
    block: &mut Block,
) -> Result<(), AllocError>
    ensures { IfOk result (λ _. statements_of block.new ≡ statements_of block.old ++ simple_statements (moved value_type (operand_pair from) (operand_pair to))) }
{
    match value_type {
        ValType::I32 => move_word(Numbered::OperandLow, from, to, block),
        ValType::I64 => {
            move_word(Numbered::OperandLow, from, to, block)?;
            move_word(Numbered::OperandHigh, from, to, block)
        }
    }
}

fn carry(
    result_type: Option<ValType>,
    depth: u64,
    base: u64,
    block: &mut Block,
) -> Result<(), AllocError>
    ensures { IfOk result (λ _. statements_of block.new ≡ statements_of block.old ++ bodies.carried result_type depth base) }
{
    match result_type {
        None => Ok(()),
        Some(value_type) => {
            if depth == base {
                Ok(())
            } else {
                move_operand(value_type, depth, base, block)
            }
        }
    }
}

fn leave_block(
    alloc: Global,
    result_type: Option<ValType>,
    depth: u64,
    base: u64,
    label: Name,
    block: &mut Block,
) -> Result<(), AllocError>
    ensures { IfOk result (λ _. statements_of block.new ≡ statements_of block.old ++ bodies.carried result_type depth base ++ plain.breaks (Some (spelled (name_view label))) ∷ []) }
{
    carry(result_type, depth, base, block)?;
    let stmt = break_to(alloc, label)?;
    block.push(stmt)
}

fn go_on(alloc: Global, label: Name, block: &mut Block) -> Result<(), AllocError>
    ensures { IfOk result (λ _. statements_of block.new ≡ statements_of block.old ++ plain.continues (Some (spelled (name_view label))) ∷ []) }
{
    let stmt = continue_to(alloc, label)?;
    block.push(stmt)
}

fn branch(
    alloc: Global,
    aim: Option<Aim>,
    label: Name,
    depth: u64,
    block: &mut Block,
) -> Result<(), AllocError>
    ensures { IfOk result (λ _. statements_of block.new ≡ statements_of block.old ++ bodies.branch (option_map aim_view aim) (spelled (name_view label)) depth) }
{
    match aim {
        None => Ok(()),
        Some(Aim::Past { base, result }) => leave_block(alloc, result, depth, base, label, block),
        Some(Aim::Again { base: _ }) => go_on(alloc, label, block),
        Some(Aim::Out { result }) => leave_with(alloc, result, depth, block),
    }
}

/// A branch to a label, with the operand above so many others.
pub fn jump(
    alloc: Global,
    aims: &[Aim],
    label: u32,
    depth: u64,
    block: &mut Block,
) -> Result<(), AllocError>
    ensures { IfOk result (λ _. statements_of block.new ≡ statements_of block.old ++ bodies.branch (slice_get (aims_view aims.now) label) (bodies.label_of (aims_view aims.now) label) depth) }
{
    branch(
        alloc,
        aim_at(aims, label),
        label_of(aims, label),
        depth,
        block,
    )
}
