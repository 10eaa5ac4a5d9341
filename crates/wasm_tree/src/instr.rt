//! Instructions.
ghost use Rattle.std.specs.Prelude.{◌≡◌, IfOk};
ghost use Rattle.sem_words.specs.Lists.{list_items};
ghost use Rattle.wasm_tree.specs.Views.{instr_of};

use sem_words::{Bin, List, Rel, Un};
use std::alloc::{AllocError, Global};
use wasm_lang::{MemOp, ValType};

/// An instruction (WebAssembly Core 1.0, section 2.4, and of version 2.0 the sign extensions,
/// `memory.copy` and `memory.fill`).
///
/// Code is flat: a block is opened by `Block`, `Loop` or `If` and closed by `End`, and `Else` stands
/// between the arms of an `If`. An expression ends with the `End` that closes it. A load or store has an
/// alignment, the exponent of a power of two, and an offset. A constant is its word.
#[derive(Drop)]
pub enum Instr {
    Unreachable,
    Nop,
    Block(Option<ValType>),
    Loop(Option<ValType>),
    If(Option<ValType>),
    Else,
    End,
    Br(u32),
    BrIf(u32),
    BrTable(List<u32>, u32),
    Return,
    Call(u32),
    CallIndirect(u32),
    Drop,
    Select,
    LocalGet(u32),
    LocalSet(u32),
    LocalTee(u32),
    GlobalGet(u32),
    GlobalSet(u32),
    Load(MemOp, u32, u32),
    Store(MemOp, u32, u32),
    MemorySize,
    MemoryCopy,
    MemoryFill,
    Const32(u32),
    Const64(u64),
    Eqz32,
    Eqz64,
    Rel32(Rel),
    Rel64(Rel),
    Un32(Un),
    Un64(Un),
    Bin32(Bin),
    Bin64(Bin),
    Wrap,
    ExtendS,
    ExtendU,
    /// The low `bits` bits of an operand, of 64 bits where it is `wide`, extended with their sign.
    SignExtend { wide: bool, bits: u32 },
}

/// A copy of an instruction.
pub fn copied(alloc: Global, instr: &Instr) -> Result<Instr, AllocError>
    ensures { IfOk result (λ copy. instr_of copy ≡ instr_of instr.now) }
{
    Ok(match instr {
        Instr::Unreachable => Instr::Unreachable,
        Instr::Nop => Instr::Nop,
        Instr::Block(kind) => Instr::Block(*kind),
        Instr::Loop(kind) => Instr::Loop(*kind),
        Instr::If(kind) => Instr::If(*kind),
        Instr::Else => Instr::Else,
        Instr::End => Instr::End,
        Instr::Br(label) => Instr::Br(*label),
        Instr::BrIf(label) => Instr::BrIf(*label),
        Instr::BrTable(labels, default) => {
            Instr::BrTable(copied_numbers(alloc, labels)?, *default)
        }
        Instr::Return => Instr::Return,
        Instr::Call(function) => Instr::Call(*function),
        Instr::CallIndirect(function_type) => Instr::CallIndirect(*function_type),
        Instr::Drop => Instr::Drop,
        Instr::Select => Instr::Select,
        Instr::LocalGet(local) => Instr::LocalGet(*local),
        Instr::LocalSet(local) => Instr::LocalSet(*local),
        Instr::LocalTee(local) => Instr::LocalTee(*local),
        Instr::GlobalGet(global) => Instr::GlobalGet(*global),
        Instr::GlobalSet(global) => Instr::GlobalSet(*global),
        Instr::Load(op, align, offset) => Instr::Load(*op, *align, *offset),
        Instr::Store(op, align, offset) => Instr::Store(*op, *align, *offset),
        Instr::MemorySize => Instr::MemorySize,
        Instr::MemoryCopy => Instr::MemoryCopy,
        Instr::MemoryFill => Instr::MemoryFill,
        Instr::Const32(word) => Instr::Const32(*word),
        Instr::Const64(word) => Instr::Const64(*word),
        Instr::Eqz32 => Instr::Eqz32,
        Instr::Eqz64 => Instr::Eqz64,
        Instr::Rel32(op) => Instr::Rel32(*op),
        Instr::Rel64(op) => Instr::Rel64(*op),
        Instr::Un32(op) => Instr::Un32(*op),
        Instr::Un64(op) => Instr::Un64(*op),
        Instr::Bin32(op) => Instr::Bin32(*op),
        Instr::Bin64(op) => Instr::Bin64(*op),
        Instr::Wrap => Instr::Wrap,
        Instr::ExtendS => Instr::ExtendS,
        Instr::ExtendU => Instr::ExtendU,
        Instr::SignExtend { wide, bits } => Instr::SignExtend {
            wide: *wide,
            bits: *bits,
        },
    })
}

fn copied_numbers(alloc: Global, numbers: &List<u32>) -> Result<List<u32>, AllocError>
    ensures { IfOk result (λ copy. list_items copy ≡ list_items numbers.now) }
{
    Ok(List::from_vec(Vec::from_slice(alloc, numbers.as_slice())?))
}
