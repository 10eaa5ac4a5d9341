//! Instructions (WebAssembly Core 1.0, section 5.4).
ghost use Rattle.std.specs.Prelude.{◌≡◌, ◌++◌, map, OnOk};
ghost use Rattle.wasm_tree.specs.Views.{instr_of};
ghost use Rattle.wasm_binary_write.specs.Spelling.{immediates, instruction, items, unsigned, vector};

use crate::leb::{push_s32, push_s64, push_unsigned};
use crate::spell::{Spell, push_items, push_vector};
use crate::types::push_block_type;
use std::alloc::{AllocError, Global};
use wasm_tree::{Instr, opcode};

impl Spell for Instr {
    ghost use Rattle.wasm_tree.specs.Views.{instr_of};
    ghost use Rattle.wasm_binary_write.specs.Spelling.{instruction};

    ghost spelling = { λ i. instruction (instr_of i) };

    fn push_to(&self, alloc: Global, out: &mut Vec<u8>) -> Result<(), AllocError> {
        match opcode(self) {
            Some(byte) => {
                out.push(byte)?;
                push_immediates(alloc, out, self)
            }
            None => Ok(()),
        }
    }
}

/// Appends instructions, one after another.
pub fn push_instrs(alloc: Global, out: &mut Vec<u8>, list: &[Instr]) -> Result<(), AllocError>
    ensures { OnOk result (out.new.items ≡ out.old.items ++ items instruction (map instr_of list.now)) }
{
    push_items(alloc, out, list)
}

// What follows the opcode.
fn push_immediates(alloc: Global, out: &mut Vec<u8>, instr: &Instr) -> Result<(), AllocError>
    ensures { OnOk result (out.new.items ≡ out.old.items ++ immediates (instr_of instr.now)) }
{
    match instr {
        Instr::Block(kind) => push_block_type(alloc, out, *kind),
        Instr::Loop(kind) => push_block_type(alloc, out, *kind),
        Instr::If(kind) => push_block_type(alloc, out, *kind),
        Instr::Br(label) => push_unsigned(out, *label as usize),
        Instr::BrIf(label) => push_unsigned(out, *label as usize),
        Instr::BrTable(labels, default) => { push_labels(alloc, out, labels.as_slice(), *default) }
        Instr::Call(function) => push_unsigned(out, *function as usize),
        Instr::CallIndirect(function_type) => {
            push_unsigned(out, *function_type as usize)?;
            out.push(0x00)?;
            Ok(())
        }
        Instr::LocalGet(local) => push_unsigned(out, *local as usize),
        Instr::LocalSet(local) => push_unsigned(out, *local as usize),
        Instr::LocalTee(local) => push_unsigned(out, *local as usize),
        Instr::GlobalGet(global) => push_unsigned(out, *global as usize),
        Instr::GlobalSet(global) => push_unsigned(out, *global as usize),
        Instr::Load(_, align, offset) => push_access(out, *align, *offset),
        Instr::Store(_, align, offset) => push_access(out, *align, *offset),
        Instr::MemorySize => {
            out.push(0x00)?;
            Ok(())
        }
        Instr::MemoryCopy => {
            out.extend_from_slice(&[10, 0x00, 0x00])?;
            Ok(())
        }
        Instr::MemoryFill => {
            out.extend_from_slice(&[11, 0x00])?;
            Ok(())
        }
        Instr::Const32(word) => push_s32(out, *word),
        Instr::Const64(word) => push_s64(out, *word),
        Instr::Unreachable
        | Instr::Nop
        | Instr::Else
        | Instr::End
        | Instr::Return
        | Instr::Drop
        | Instr::Select
        | Instr::Eqz32
        | Instr::Eqz64
        | Instr::Rel32(_)
        | Instr::Rel64(_)
        | Instr::Un32(_)
        | Instr::Un64(_)
        | Instr::Bin32(_)
        | Instr::Bin64(_)
        | Instr::Wrap
        | Instr::ExtendS
        | Instr::ExtendU
        | Instr::SignExtend { .. } => Ok(()),
    }
}

// The labels of a `br_table`, the default last.
fn push_labels(
    alloc: Global,
    out: &mut Vec<u8>,
    labels: &[u32],
    default: u32,
) -> Result<(), AllocError>
    ensures { OnOk result (out.new.items ≡ out.old.items ++ (vector unsigned labels.now ++ unsigned default)) }
{
    push_vector(alloc, out, labels)?;
    push_unsigned(out, default as usize)
}

// The alignment, and then the offset.
fn push_access(out: &mut Vec<u8>, align: u32, offset: u32) -> Result<(), AllocError>
    ensures { OnOk result (out.new.items ≡ out.old.items ++ (unsigned align ++ unsigned offset)) }
{
    push_unsigned(out, align as usize)?;
    push_unsigned(out, offset as usize)
}
