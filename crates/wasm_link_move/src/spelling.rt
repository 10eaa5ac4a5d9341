// The moved code of a body, each instruction written in its shortest spelling as soon as it is moved.

ghost use Rattle.std.specs.Prelude.{◌≡◌, ◌||◌, ◌++◌, map, IfOk};
ghost use Rattle.std.specs.List.{flat_map};
ghost use Rattle.wasm_lang.specs.ReadingCode.{spelled};
ghost use Rattle.wasm_tree.specs.Views.{code_of, instr_of};
ghost use Rattle.wasm_binary_write.specs.Spelling.{instruction, items};
ghost use Rattle.wasm_link_lang.specs.Refusal.{has_indirect, is_indirect};
ghost use Rattle.wasm_link_move.specs.Moved.{pushed, side_of};

use crate::anew::{put_call, put_get, put_indirect, put_set};
use crate::code::Side;
use std::alloc::{AllocError, Global};
use wasm_binary_write::Spell;
use wasm_link_bind::Numbers;
use wasm_tree::{Code, Input, Instr, ReadError, read_instr};

/// Appends the moved code of a body with this scratch local, and says whether a call by an entry is in it.
pub fn push_code(
    alloc: Global,
    out: &mut Vec<u8>,
    numbers: &Numbers<'_>,
    side: Side,
    scratch: u128,
    code: &Code<'_>,
) -> Result<bool, AllocError>
    ensures put { IfOk result (λ _. out.new.items ≡ out.old.items ++ items instruction (flat_map (pushed numbers.now (side_of side) scratch) (code_of code.now))) }
    ensures said { IfOk result (λ indirect. indirect ≡ has_indirect (code_of code.now)) }
{
    match code {
        Code::Own(list) => push_listed(alloc, out, numbers, side, scratch, list.as_slice()),
        Code::Lent(bytes) => push_lent(alloc, out, numbers, side, scratch, bytes),
    }
}

// .. of instructions that the body owns.
fn push_listed(
    alloc: Global,
    out: &mut Vec<u8>,
    numbers: &Numbers<'_>,
    side: Side,
    scratch: u128,
    code: &[Instr],
) -> Result<bool, AllocError>
    ensures put { IfOk result (λ _. out.new.items ≡ out.old.items ++ items instruction (flat_map (pushed numbers.now (side_of side) scratch) (map instr_of code.now))) }
    ensures said { IfOk result (λ indirect. indirect ≡ has_indirect (map instr_of code.now)) }
{
    let mut indirect = false;
    for instr in code {
        let found = push_one(alloc, out, numbers, side, scratch, instr)?;
        indirect = either(indirect, found);
    }
    Ok(indirect)
}

// .. of bytes, up to the end, or up to bytes that are no instruction.
fn push_lent(
    alloc: Global,
    out: &mut Vec<u8>,
    numbers: &Numbers<'_>,
    side: Side,
    scratch: u128,
    bytes: &[u8],
) -> Result<bool, AllocError>
    ensures put { IfOk result (λ _. out.new.items ≡ out.old.items ++ items instruction (flat_map (pushed numbers.now (side_of side) scratch) (spelled bytes.now))) }
    ensures said { IfOk result (λ indirect. indirect ≡ has_indirect (spelled bytes.now)) }
{
    let mut rest = Input::new(bytes);
    let mut indirect = false;
    for _turn in 0..bytes.len() {
        match read_instr(alloc, rest) {
            Ok((instr, after)) => {
                let found = push_one(alloc, out, numbers, side, scratch, &instr)?;
                indirect = either(indirect, found);
                rest = after;
            }
            Err(ReadError::Refused(_)) => return Ok(indirect),
            Err(ReadError::Memory) => return Err(AllocError),
        }
    }
    Ok(indirect)
}

fn either(first: bool, second: bool) -> bool
    ensures { result ≡ (first || second) }
{
    first || second
}

// Appends an instruction, and says whether it is a call by an entry.
fn push_one(
    alloc: Global,
    out: &mut Vec<u8>,
    numbers: &Numbers<'_>,
    side: Side,
    scratch: u128,
    instr: &Instr,
) -> Result<bool, AllocError>
    ensures put { IfOk result (λ _. out.new.items ≡ out.old.items ++ items instruction (pushed numbers.now (side_of side) scratch (instr_of instr.now))) }
    ensures said { IfOk result (λ indirect. indirect ≡ is_indirect (instr_of instr.now)) }
{
    match instr {
        Instr::Call(function) => put_call(alloc, out, numbers, side, *function)?,
        Instr::GlobalGet(global) => put_get(alloc, out, numbers, side, *global)?,
        Instr::GlobalSet(global) => put_set(alloc, out, numbers, side, *global)?,
        Instr::CallIndirect(t) => {
            put_indirect(alloc, out, numbers, side, scratch, *t)?;
            return Ok(true);
        }
        _ => instr.push_to(alloc, out)?,
    }
    Ok(false)
}
