//! Calls.
ghost use Rattle.std.specs.Prelude.{◌≡◌, ◌≤◌, ◌+◌, ◌++◌, suc, length, drop, slice_get, vec_len, Some, IfOk};
ghost use Rattle.wasm_lang_valid.specs.Typing as typing;
ghost use Rattle.wasm_tree.specs.Views.{type_of};
ghost use Rattle.wasm2js_translation.specs.Actions as actions;
ghost use Rattle.wasm2js_translation.specs.Bodies as bodies;
ghost use Rattle.wasm2js_build.specs.Blocks.{statements_of};
ghost use Rattle.wasm2js_build.specs.Growing.{waits_of, held_of, nothing_held};
ghost use Rattle.wasm2js_operands.specs.Operands.{over, IsKept};
ghost use Rattle.wasm2js_operands.specs.Scopes.{context_in};

use crate::closing::give;
use crate::waiting::keep_standing;
use std::alloc::{AllocError, Global};
use wasm_lang::ValType;
use wasm_tree::FuncType;
use wasm2js_build::{Block, LateBlock};
use wasm2js_jumps::{CalledTable, answered, call_entry, function_call, result_type};
use wasm2js_operands::{BodyScope, after_call, remove, under};

// A call of a function of this type. What waits below its arguments is written before it.
fn call_with(
    alloc: Global,
    types: &mut Vec<ValType>,
    base: usize,
    function: u32,
    function_type: &FuncType,
    text: &mut LateBlock,
) -> Result<(), AllocError>
    requires { base ≤ vec_len types.old }
    ensures kept { IfOk result (λ _. IsKept base types.old.items types.new.items) }
    ensures types { IfOk result (λ _. over base types.new.items ≡ bodies.after_call (type_of function_type.now) (over base types.old.items)) }
    ensures held { IfOk result (λ _. held_of text.new ≡ nothing_held) }
    ensures statements { IfOk result (λ _. statements_of text.new.block ≡ statements_of text.old.block ++ bodies.call_stmts (waits_of text.old) function base (over base types.old.items) (Some (type_of function_type.now))) }
{
    let count = function_type.params.len();
    let depth = under(types, base, count);
    let made = function_call(alloc, text, function, depth, function_type)?;
    remove(types, base, count);
    keep_standing(types, base, text);
    text.write_all()?;
    let gives = result_type(function_type);
    answered(alloc, gives, depth, made, &mut text.block)?;
    give(types, base, gives)?;
    Ok(())
}

/// `call`
pub fn put_call(
    alloc: Global,
    scope: &BodyScope<'_>,
    types: &mut Vec<ValType>,
    base: usize,
    function: u32,
    text: &mut LateBlock,
) -> Result<(), AllocError>
    requires { base ≤ vec_len types.old }
    ensures kept { IfOk result (λ _. IsKept base types.old.items types.new.items) }
    ensures types { IfOk result (λ _. over base types.new.items ≡ bodies.types_after_call (typing.type_of (context_in scope.now) function) (over base types.old.items)) }
    ensures held { IfOk result (λ _. held_of text.new ≡ nothing_held) }
    ensures statements { IfOk result (λ _. statements_of text.new.block ≡ statements_of text.old.block ++ bodies.call_stmts (waits_of text.old) function base (over base types.old.items) (typing.type_of (context_in scope.now) function)) }
{
    match scope.function_type(function) {
        None => {
            text.forget();
            Ok(())
        }
        Some(function_type) => {
            call_with(alloc, types, base, function, function_type, text)?;
            Ok(())
        }
    }
}

fn call_entry_with(
    alloc: Global,
    table: CalledTable,
    types: &mut Vec<ValType>,
    base: usize,
    function_type: &FuncType,
    block: &mut Block,
) -> Result<(), AllocError>
    requires { base ≤ vec_len types.old }
    ensures kept { IfOk result (λ _. IsKept base types.old.items types.new.items) }
    ensures types { IfOk result (λ _. over base types.new.items ≡ bodies.after_call (type_of function_type.now) (drop 1 (over base types.old.items))) }
    ensures statements { IfOk result (λ _. statements_of block.new ≡ statements_of block.old ++ bodies.table_call_of table.cells table.number (actions.under 1 base (over base types.old.items)) (actions.under (suc (length (type_of function_type.now).params)) base (over base types.old.items)) (type_of function_type.now)) }
{
    let index = under(types, base, 1);
    let depth = under(types, base, function_type.params.len() + 1);
    call_entry(alloc, table, index, depth, function_type, block)?;
    remove(types, base, 1);
    after_call(types, base, function_type)?;
    Ok(())
}

/// `call_indirect`, through tables of so many cells.
pub fn put_call_indirect(
    alloc: Global,
    cells: u64,
    scope: &BodyScope<'_>,
    types: &mut Vec<ValType>,
    base: usize,
    number: u32,
    block: &mut Block,
) -> Result<(), AllocError>
    requires { base ≤ vec_len types.old }
    ensures kept { IfOk result (λ _. IsKept base types.old.items types.new.items) }
    ensures types { IfOk result (λ _. over base types.new.items ≡ bodies.types_after_call (slice_get (context_in scope.now).types number) (drop 1 (over base types.old.items))) }
    ensures statements { IfOk result (λ _. statements_of block.new ≡ statements_of block.old ++ bodies.indirect_stmts cells (context_in scope.now).types base (over base types.old.items) (slice_get (context_in scope.now).types number)) }
{
    match scope.type_at(number) {
        None => {
            remove(types, base, 1);
            Ok(())
        }
        Some(function_type) => {
            let table = CalledTable {
                number: scope.form_at(number),
                cells,
            };
            call_entry_with(alloc, table, types, base, function_type, block)?;
            Ok(())
        }
    }
}
