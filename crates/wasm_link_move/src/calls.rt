// Calls by an entry of one of two tables that are laid end to end.

ghost use Rattle.std.specs.Prelude.{◌≡◌, ◌++◌, [], map, OnOk};
ghost use Rattle.wasm_tree.specs.Views.{instr_of};
ghost use Rattle.wasm_link_code.specs.Code as plain;

use sem_words::{Bin, Rel};
use std::alloc::AllocError;
use wasm_tree::Instr;

/// Appends a call by an entry of a table of `length` entries that begins at `base`, where the other module has so many entries. An index past the
/// own part goes to 4294967295, which lies outside every table.
pub fn push_by_entry(
    code: &mut Vec<Instr>,
    other: u32,
    scratch: u32,
    base: u32,
    length: u32,
    function_type: u32,
) -> Result<(), AllocError>
    ensures { OnOk result (map instr_of code.new.items ≡ map instr_of code.old.items ++ plain.by_entry other scratch base length function_type) }
{
    if other == 0 {
        code.push(Instr::CallIndirect(function_type))?;
        return Ok(());
    }
    code.push(Instr::LocalTee(scratch))?;
    if base != 0 {
        code.push(Instr::Const32(base))?;
        code.push(Instr::Bin32(Bin::Add))?;
    }
    push_bounded(code, scratch, length)?;
    code.push(Instr::CallIndirect(function_type))?;
    Ok(())
}

// The bounds of an index in the scratch local, for its place on top.
fn push_bounded(code: &mut Vec<Instr>, scratch: u32, length: u32) -> Result<(), AllocError>
    ensures { OnOk result (map instr_of code.new.items ≡ map instr_of code.old.items ++ plain.bounded scratch length []) }
{
    code.push(Instr::Const32(u32::MAX))?;
    code.push(Instr::LocalGet(scratch))?;
    code.push(Instr::Const32(length))?;
    code.push(Instr::Rel32(Rel::LtU))?;
    code.push(Instr::Select)?;
    Ok(())
}
