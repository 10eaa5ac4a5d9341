//! Calls.
ghost use Rattle.std.specs.Prelude.{◌≡◌, ◌<◌, ◌+◌, ◌-◌, ◌^◌, ◌∷◌, [], ◌++◌, length, map, IfOk};
ghost use Rattle.sem_words.specs.Lists.{list_items};
ghost use Rattle.sem_words.specs.declared.js_value.JsOp.TheVariants.{And};
ghost use Rattle.asm_lang.specs.Modules as plain;
ghost use Rattle.asm_tree.specs.Views.{expr_view, exprs_view};
ghost use Rattle.wasm_tree.specs.Views.{type_of};
ghost use Rattle.wasm_lang_valid.specs.Typing.{result_of};
ghost use Rattle.wasm2js_translation.specs.Bodies as bodies;
ghost use Rattle.wasm2js_translation.specs.Actions.{low};
ghost use Rattle.wasm2js_translation.specs.Delays.{at_hand};
ghost use Rattle.wasm2js_translation.specs.Words as words;
ghost use Rattle.wasm2js_translation.specs.Names.{numbered, function as function_kind, table as table_kind, spelled};
ghost use Rattle.wasm2js_nodes.specs.Names.{numbered_view};
ghost use Rattle.wasm2js_build.specs.Blocks.{statements_of};
ghost use Rattle.wasm2js_build.specs.Growing.{waits_of};
ghost use Rattle.wasm2js_jumps.specs.Arguments.{given_at, given_from};

use crate::nodes::{effect, masked, table_call};
use crate::values::take_high;
use asm_tree::Expr;
use sem_words::List;
use std::alloc::{AllocError, Global};
use wasm_lang::ValType;
use wasm_tree::FuncType;
use wasm2js_build::{Block, LateBlock, argument};
use wasm2js_nodes::{Name, Numbered, call, natural, put_in, signed, variable};
use wasm2js_terms::Term;

// The word that stands for a variable after this text.
fn add_word(
    alloc: Global,
    text: &LateBlock,
    kind: Numbered,
    depth: u64,
    values: &mut List<Expr>,
) -> Result<(), AllocError>
    ensures { IfOk result (λ _. map expr_view (list_items values.new) ≡ map expr_view (list_items values.old) ++ words.int_of (at_hand (waits_of text.now) (numbered (numbered_view kind) depth)) ∷ []) }
{
    let word = text.word_at(Name::Counted(kind, depth));
    let value = argument(alloc, word)?;
    match values.push(value) {
        Ok(()) => Ok(()),
        Err(_) => Err(AllocError),
    }
}

// The words of the operand above so many others.
fn add_words(
    alloc: Global,
    text: &LateBlock,
    value_type: ValType,
    depth: u64,
    values: &mut List<Expr>,
) -> Result<(), AllocError>
    ensures { IfOk result (λ _. map expr_view (list_items values.new) ≡ map expr_view (list_items values.old) ++ given_at (waits_of text.now) depth value_type) }
{
    match value_type {
        ValType::I32 => add_word(alloc, text, Numbered::OperandLow, depth, values),
        ValType::I64 => {
            add_word(alloc, text, Numbered::OperandLow, depth, values)?;
            add_word(alloc, text, Numbered::OperandHigh, depth, values)
        }
    }
}

// The words of operands of these types, of which the first is above so many others.
fn words_of(
    alloc: Global,
    text: &LateBlock,
    depth: u64,
    types: &[ValType],
) -> Result<List<Expr>, AllocError>
    requires { depth + length types.now < 2 ^ 64 }
    ensures { IfOk result (λ es. map expr_view (list_items es) ≡ given_from (waits_of text.now) depth types.now) }
{
    let mut values = List::new(alloc);
    for (i, value_type) in types.iter().enumerate() {
        add_words(alloc, text, *value_type, depth + i as u64, &mut values)?;
    }
    Ok(values)
}

#[tactic(auto, using(crate::proofs::CallLemmas::words_are))]
fn arguments(
    alloc: Global,
    text: &LateBlock,
    depth: u64,
    types: &[ValType],
) -> Result<List<Expr>, AllocError>
    requires { depth + length types.now < 2 ^ 64 }
    ensures { IfOk result (λ es. exprs_view (list_items es) ≡ bodies.arguments_from (waits_of text.now) depth types.now) }
{
    words_of(alloc, text, depth, types)
}

fn word_answered(alloc: Global, depth: u64, call: Expr, block: &mut Block) -> Result<(), AllocError>
    ensures { IfOk result (λ _. statements_of block.new ≡ statements_of block.old ++ words.put_in (low depth) (words.signed_number (expr_view call)) ∷ []) }
{
    let value = signed(alloc, call)?;
    let stmt = put_in(alloc, Name::Counted(Numbered::OperandLow, depth), value)?;
    block.push(stmt)
}

/// The result of a call becomes the operand above so many others.
pub fn answered(
    alloc: Global,
    result_type: Option<ValType>,
    depth: u64,
    call: Expr,
    block: &mut Block,
) -> Result<(), AllocError>
    ensures { IfOk result (λ _. statements_of block.new ≡ statements_of block.old ++ bodies.answered result_type depth (expr_view call)) }
{
    match result_type {
        None => block.push(effect(call)),
        Some(ValType::I32) => word_answered(alloc, depth, call, block),
        Some(ValType::I64) => {
            word_answered(alloc, depth, call, block)?;
            take_high(alloc, depth, block)
        }
    }
}

/// The result of a function.
pub fn result_type(function_type: &FuncType) -> Option<ValType>
    ensures { result ≡ result_of (type_of function_type.now) }
{
    let results = function_type.results.as_slice();
    if results.is_empty() {
        None
    } else {
        Some(results[0])
    }
}

/// The call of a function after this text, whose first argument is the operand above so many others: the words that
/// wait for its operands stand in it.
pub fn function_call(
    alloc: Global,
    text: &LateBlock,
    function: u32,
    depth: u64,
    function_type: &FuncType,
) -> Result<Expr, AllocError>
    requires { depth + length (type_of function_type.now).params < 2 ^ 64 }
    ensures { IfOk result (λ e. expr_view e ≡ plain.call (spelled (numbered function_kind function)) (bodies.arguments_from (waits_of text.now) depth (type_of function_type.now).params)) }
{
    let values = arguments(alloc, text, depth, function_type.params.as_slice())?;
    let name = Name::Counted(Numbered::Function, function as u64);
    call(alloc, name, values)
}

/// A table as it is called through: its number, and how many cells it has.
#[derive(Clone, Copy)]
pub struct CalledTable {
    pub number: u64,
    pub cells: u64,
}

fn guard_index(cells: u64, index: u64, block: &mut Block) -> Result<(), AllocError>
    ensures { IfOk result (λ _. statements_of block.new ≡ statements_of block.old ++ words.simple_statement (words.guard (words.read (low index)) (cells - 1) 5) ∷ []) }
{
    let most = if cells == 0 { 0 } else { cells - 1 };
    let read = Term::read(Name::Counted(Numbered::OperandLow, index));
    block.guard(&read, most, 5)
}

fn cell_index(alloc: Global, cells: u64, index: u64) -> Result<Expr, AllocError>
    ensures { IfOk result (λ e. expr_view e ≡ plain.binary And (bodies.word_in (low index)) (words.natural (cells - 1))) }
{
    let most = if cells == 0 { 0 } else { cells - 1 };
    let read = variable(alloc, Name::Counted(Numbered::OperandLow, index))?;
    masked(alloc, read, natural(most))
}

// The call of an entry, where nothing waits.
fn entry_call(
    alloc: Global,
    table: CalledTable,
    index: u64,
    depth: u64,
    types: &[ValType],
) -> Result<Expr, AllocError>
    requires { depth + length types.now < 2 ^ 64 }
    ensures { IfOk result (λ e. expr_view e ≡ plain.table_call (spelled (numbered table_kind table.number)) (plain.binary And (bodies.word_in (low index)) (words.natural (table.cells - 1))) (bodies.arguments_from [] depth types.now)) }
{
    let nothing_waits = LateBlock::new(alloc);
    let values = arguments(alloc, &nothing_waits, depth, types)?;
    let cell = cell_index(alloc, table.cells, index)?;
    table_call(
        alloc,
        Name::Counted(Numbered::Table, table.number),
        cell,
        values,
    )
}

/// A call of the entry that the operand of number `index` tells, whose first argument is the operand above so many others.
pub fn call_entry(
    alloc: Global,
    table: CalledTable,
    index: u64,
    depth: u64,
    function_type: &FuncType,
    block: &mut Block,
) -> Result<(), AllocError>
    requires { depth + length (type_of function_type.now).params < 2 ^ 64 }
    ensures { IfOk result (λ _. statements_of block.new ≡ statements_of block.old ++ bodies.table_call_of table.cells table.number index depth (type_of function_type.now)) }
{
    guard_index(table.cells, index, block)?;
    let made = entry_call(alloc, table, index, depth, function_type.params.as_slice())?;
    answered(alloc, result_type(function_type), depth, made, block)
}
