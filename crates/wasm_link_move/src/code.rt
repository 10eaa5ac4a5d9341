// Code, instruction by instruction.

ghost use Rattle.std.specs.Prelude.{◌≡◌, ◌≤◌, ◌^◌, ◌+◌, ◌++◌, map, IfOk, OnOk};
ghost use Rattle.std.specs.List.{flat_map};
ghost use Rattle.sem_words.specs.Lists.{list_items};
ghost use Rattle.wasm_tree.specs.Views.{code_of, instr_of};
ghost use Rattle.wasm_lang.specs.Instructions.{call_indirect};
ghost use Rattle.wasm_link_code.specs.Numbers as plain;
ghost use Rattle.wasm_link_code.specs.Numbers.{number};
ghost use Rattle.wasm_link_move.specs.Moved.{AllFit, bases, moved_in, pushed, side_of};

use crate::calls::push_by_entry;
use sem_words::List;
use std::alloc::{AllocError, Global};
use wasm_link_bind::{Numbers, Sizes};
use wasm_tree::{Code, Instr};

/// Which of two modules.
#[derive(Clone, Copy, PartialEq, Eq, Debug)]
pub enum Side {
    First,
    Second,
}

/// The moved code of a body of one of two modules, which has this scratch local.
pub fn moved_code(
    alloc: Global,
    numbers: &Numbers<'_>,
    side: Side,
    scratch: u128,
    code: &Code<'_>,
) -> Result<List<Instr>, AllocError>
    ensures made { IfOk result (λ list. map instr_of (list_items list) ≡ flat_map (pushed numbers.now (side_of side) scratch) (code_of code.now)) }
    ensures moved { IfOk result (λ list. AllFit numbers.now (side_of side) scratch (code_of code.now) → map instr_of (list_items list) ≡ flat_map (moved_in numbers.now (side_of side) scratch) (code_of code.now)) }
{
    let code = code.instrs(alloc)?;
    let moved = pushed_all(alloc, numbers, side, scratch, code.into_vec())?;
    Ok(moved)
}

fn pushed_all(
    alloc: Global,
    numbers: &Numbers<'_>,
    side: Side,
    scratch: u128,
    code: Vec<Instr>,
) -> Result<List<Instr>, AllocError>
    ensures { IfOk result (λ list. map instr_of (list_items list) ≡ flat_map (pushed numbers.now (side_of side) scratch) (map instr_of code.items)) }
{
    let mut moved = Vec::new(alloc);
    for instr in code {
        push_moved(&mut moved, numbers, side, scratch, instr)?;
    }
    Ok(List::from_vec(moved))
}

// One instruction.
fn push_moved(
    code: &mut Vec<Instr>,
    numbers: &Numbers<'_>,
    side: Side,
    scratch: u128,
    instr: Instr,
) -> Result<(), AllocError>
    ensures { OnOk result (map instr_of code.new.items ≡ map instr_of code.old.items ++ pushed numbers.now (side_of side) scratch (instr_of instr)) }
{
    match instr {
        Instr::Call(function) => code.push(Instr::Call(function_number(numbers, side, function)))?,
        Instr::GlobalGet(global) => code.push(Instr::GlobalGet(global_number(
            numbers, side, global,
        )))?,
        Instr::GlobalSet(global) => code.push(Instr::GlobalSet(global_number(
            numbers, side, global,
        )))?,
        Instr::CallIndirect(function_type) => push_indirect(
            code,
            numbers,
            side,
            scratch,
            function_type,
        )?,
        other => code.push(other)?,
    }
    Ok(())
}

/// Appends a call by an entry.
pub fn push_indirect(
    code: &mut Vec<Instr>,
    numbers: &Numbers<'_>,
    side: Side,
    scratch: u128,
    function_type: u32,
) -> Result<(), AllocError>
    ensures { OnOk result (map instr_of code.new.items ≡ map instr_of code.old.items ++ pushed numbers.now (side_of side) scratch (call_indirect function_type)) }
{
    let address = bases_of(numbers, side).types + function_type as usize;
    let first = numbers.first_entries();
    let second = numbers.second_entries();
    match (u32::try_from(address), u32::try_from(scratch)) {
        (Ok(t), Ok(k)) if address < numbers.first().sizes().types => {
            push_by_entry(code, second, k, 0, first, t)
        }
        (Ok(t), Ok(k)) => push_by_entry(code, first, k, first, second, t),
        _ => Ok(()),
    }
}

// Where the addresses of a module begin.
fn bases_of(numbers: &Numbers<'_>, side: Side) -> Sizes
    ensures functions { result.functions ≡ (bases numbers.now (side_of side)).functions }
    ensures types { result.types ≡ (bases numbers.now (side_of side)).types }
    ensures globals { result.globals ≡ (bases numbers.now (side_of side)).globals }
    ensures few_functions { result.functions ≤ 2 ^ 62 }
    ensures few_types { result.types ≤ 2 ^ 62 }
    ensures few_globals { result.globals ≤ 2 ^ 62 }
{
    match side {
        Side::First => Sizes {
            functions: 0,
            types: 0,
            globals: 0,
        },
        Side::Second => numbers.first().sizes(),
    }
}

/// The number of what a function of one of the modules stands for.
pub fn function_number(numbers: &Numbers<'_>, side: Side, function: u32) -> u32
    ensures { result ≡ number numbers.now ((bases numbers.now (side_of side)).functions + function) }
{
    numbers.function(bases_of(numbers, side).functions + function as usize)
}

/// The number of a global of one of the modules.
pub fn global_number(numbers: &Numbers<'_>, side: Side, global: u32) -> u32
    ensures { result ≡ plain.global_number numbers.now ((bases numbers.now (side_of side)).globals + global) }
{
    numbers.global(bases_of(numbers, side).globals + global as usize)
}
