// Instructions whose numbers change, each in its shortest spelling.

ghost use Rattle.std.specs.Prelude.{◌≡◌, ◌+◌, ◌++◌, [], ◌∷◌, map, IfOk, OnOk};
ghost use Rattle.wasm_tree.specs.Views.{instr_of};
ghost use Rattle.wasm_lang.specs.Instructions.{call, call_indirect, global_get, global_set, plain};
ghost use Rattle.wasm_binary_write.specs.Spelling.{instruction, items};
ghost use Rattle.wasm_link_code.specs.Numbers as numbering;
ghost use Rattle.wasm_link_code.specs.Numbers.{number};
ghost use Rattle.wasm_link_move.specs.Moved.{bases, pushed, side_of};

use crate::code::{Side, function_number, global_number, push_indirect};
use std::alloc::{AllocError, Global};
use wasm_binary_write::push_instrs;
use wasm_link_bind::Numbers;
use wasm_tree::Instr;

/// Appends a call.
pub fn put_call(
    alloc: Global,
    out: &mut Vec<u8>,
    numbers: &Numbers<'_>,
    side: Side,
    function: u32,
) -> Result<(), AllocError>
    ensures { OnOk result (out.new.items ≡ out.old.items ++ items instruction (call (number numbers.now ((bases numbers.now (side_of side)).functions + function)) ∷ [])) }
{
    let number = function_number(numbers, side, function);
    push_instrs(alloc, out, &[Instr::Call(number)])
}

/// Appends the reading of a global.
pub fn put_get(
    alloc: Global,
    out: &mut Vec<u8>,
    numbers: &Numbers<'_>,
    side: Side,
    global: u32,
) -> Result<(), AllocError>
    ensures { OnOk result (out.new.items ≡ out.old.items ++ items instruction (plain (global_get (numbering.global_number numbers.now ((bases numbers.now (side_of side)).globals + global))) ∷ [])) }
{
    let number = global_number(numbers, side, global);
    push_instrs(alloc, out, &[Instr::GlobalGet(number)])
}

/// Appends the writing of a global.
pub fn put_set(
    alloc: Global,
    out: &mut Vec<u8>,
    numbers: &Numbers<'_>,
    side: Side,
    global: u32,
) -> Result<(), AllocError>
    ensures { OnOk result (out.new.items ≡ out.old.items ++ items instruction (plain (global_set (numbering.global_number numbers.now ((bases numbers.now (side_of side)).globals + global))) ∷ [])) }
{
    let number = global_number(numbers, side, global);
    push_instrs(alloc, out, &[Instr::GlobalSet(number)])
}

/// Appends a call by an entry.
pub fn put_indirect(
    alloc: Global,
    out: &mut Vec<u8>,
    numbers: &Numbers<'_>,
    side: Side,
    scratch: u128,
    function_type: u32,
) -> Result<(), AllocError>
    ensures { OnOk result (out.new.items ≡ out.old.items ++ items instruction (pushed numbers.now (side_of side) scratch (call_indirect function_type))) }
{
    let code = entry_code(alloc, numbers, side, scratch, function_type)?;
    push_instrs(alloc, out, code.as_slice())
}

fn entry_code(
    alloc: Global,
    numbers: &Numbers<'_>,
    side: Side,
    scratch: u128,
    function_type: u32,
) -> Result<Vec<Instr>, AllocError>
    ensures { IfOk result (λ code. map instr_of code.items ≡ pushed numbers.now (side_of side) scratch (call_indirect function_type)) }
{
    let mut code = Vec::with_capacity(alloc, 9)?;
    push_indirect(&mut code, numbers, side, scratch, function_type)?;
    Ok(code)
}
