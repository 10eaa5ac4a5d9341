//! Opcodes (WebAssembly Core 1.0, section 5.4; of version 2.0 the sign extensions, `memory.copy` and
//! `memory.fill`).
#![tactic(auto, unfolding(wasm_lang::specs::Opcodes::form_at))]

ghost use Rattle.std.specs.Prelude.{◌≡◌, ◌+◌, ◌<◌, ◌≤◌, false, slice_get, MatchOption, Some, option_map};
ghost use Rattle.wasm_lang.specs.Instructions as plain;
ghost use Rattle.wasm_lang.specs.Opcodes.{IsOpcode, HasNoOpcode, bare_at, form_at, comparisons, counts, operators};
ghost use Rattle.wasm_tree.specs.Operators.{is_operator, is_load, is_store};
ghost use Rattle.wasm_tree.specs.Views.{instr_of};

use crate::instr::Instr;
use sem_words::{Bin, Rel, Un};
use wasm_lang::MemOp;

/// The byte that the spelling of an instruction begins with. None exactly for a load, a store or a sign
/// extension that isn't one of WebAssembly's.
pub fn opcode(instr: &Instr) -> Option<u8>
    ensures { MatchOption result (HasNoOpcode (instr_of instr.now)) (λ byte. IsOpcode byte (instr_of instr.now)) }
{
    match instr {
        Instr::Unreachable => Some(0x00),
        Instr::Nop => Some(0x01),
        Instr::Block(_) => Some(0x02),
        Instr::Loop(_) => Some(0x03),
        Instr::If(_) => Some(0x04),
        Instr::Else => Some(0x05),
        Instr::End => Some(0x0b),
        Instr::Br(_) => Some(0x0c),
        Instr::BrIf(_) => Some(0x0d),
        Instr::BrTable(_, _) => Some(0x0e),
        Instr::Return => Some(0x0f),
        Instr::Call(_) => Some(0x10),
        Instr::CallIndirect(_) => Some(0x11),
        Instr::Drop => Some(0x1a),
        Instr::Select => Some(0x1b),
        Instr::LocalGet(_) => Some(0x20),
        Instr::LocalSet(_) => Some(0x21),
        Instr::LocalTee(_) => Some(0x22),
        Instr::GlobalGet(_) => Some(0x23),
        Instr::GlobalSet(_) => Some(0x24),
        Instr::Load(op, _, _) => load_opcode(*op),
        Instr::Store(op, _, _) => store_opcode(*op),
        Instr::MemorySize => Some(0x3f),
        Instr::MemoryCopy | Instr::MemoryFill => Some(0xfc),
        Instr::Const32(_) => Some(0x41),
        Instr::Const64(_) => Some(0x42),
        Instr::Eqz32 => Some(0x45),
        Instr::Rel32(op) => Some(0x46 + rel_index(*op)),
        Instr::Eqz64 => Some(0x50),
        Instr::Rel64(op) => Some(0x51 + rel_index(*op)),
        Instr::Un32(op) => Some(0x67 + un_index(*op)),
        Instr::Bin32(op) => Some(0x6a + bin_index(*op)),
        Instr::Un64(op) => Some(0x79 + un_index(*op)),
        Instr::Bin64(op) => Some(0x7c + bin_index(*op)),
        Instr::Wrap => Some(0xa7),
        Instr::ExtendS => Some(0xac),
        Instr::ExtendU => Some(0xad),
        Instr::SignExtend { wide, bits } => extension_opcode(*wide, *bits),
    }
}

/// The instruction that a byte alone spells. None exactly for a byte that isn't the opcode of an
/// instruction without immediates; 0x3f, which a byte 0 follows, and 0xfc, which a number follows, are none.
pub fn plain_instr(byte: u8) -> Option<Instr>
    ensures { option_map instr_of result ≡ bare_at byte }
{
    match byte {
        0x00 => Some(Instr::Unreachable),
        0x01 => Some(Instr::Nop),
        0x05 => Some(Instr::Else),
        0x0b => Some(Instr::End),
        0x0f => Some(Instr::Return),
        0x1a => Some(Instr::Drop),
        0x1b => Some(Instr::Select),
        0x45 => Some(Instr::Eqz32),
        0x50 => Some(Instr::Eqz64),
        0xa7 => Some(Instr::Wrap),
        0xac => Some(Instr::ExtendS),
        0xad => Some(Instr::ExtendU),
        0xc0 => Some(extension(false, 8)),
        0xc1 => Some(extension(false, 16)),
        0xc2 => Some(extension(true, 8)),
        0xc3 => Some(extension(true, 16)),
        0xc4 => Some(extension(true, 32)),
        _ => operator_instr(byte),
    }
}

// The instruction of a comparison, a count or an operator of two operands.
fn operator_instr(byte: u8) -> Option<Instr>
    ensures { MatchOption result (is_operator byte ≡ false) (λ instr. Some (instr_of instr) ≡ bare_at byte) }
{
    if byte < 0x46 {
        None
    } else if byte <= 0x4f {
        Some(Instr::Rel32(rel_at(byte - 0x46)))
    } else if byte < 0x51 {
        None
    } else if byte <= 0x5a {
        Some(Instr::Rel64(rel_at(byte - 0x51)))
    } else if byte < 0x67 {
        None
    } else {
        count_or_arithmetic(byte)
    }
}

fn count_or_arithmetic(byte: u8) -> Option<Instr>
    requires { 0x67 ≤ byte }
    ensures { MatchOption result (is_operator byte ≡ false) (λ instr. Some (instr_of instr) ≡ bare_at byte) }
{
    if byte <= 0x69 {
        Some(Instr::Un32(un_at(byte - 0x67)))
    } else if byte <= 0x78 {
        Some(Instr::Bin32(bin_at(byte - 0x6a)))
    } else if byte <= 0x7b {
        Some(Instr::Un64(un_at(byte - 0x79)))
    } else if byte <= 0x8a {
        Some(Instr::Bin64(bin_at(byte - 0x7c)))
    } else {
        None
    }
}

fn extension(wide: bool, bits: u32) -> Instr
    ensures { instr_of result ≡ plain.plain (plain.sign_extend wide bits) }
{
    Instr::SignExtend { wide, bits }
}

// The opcode of a load.
fn load_opcode(op: MemOp) -> Option<u8>
    ensures { MatchOption result (HasNoOpcode (plain.plain (plain.load op 0 0))) (λ byte. IsOpcode byte (plain.plain (plain.load op 0 0))) }
{
    match (op.wide, op.signed, op.size) {
        (false, false, 4) => Some(0x28),
        (true, false, 8) => Some(0x29),
        (false, true, 1) => Some(0x2c),
        (false, false, 1) => Some(0x2d),
        (false, true, 2) => Some(0x2e),
        (false, false, 2) => Some(0x2f),
        (true, true, 1) => Some(0x30),
        (true, false, 1) => Some(0x31),
        (true, true, 2) => Some(0x32),
        (true, false, 2) => Some(0x33),
        (true, true, 4) => Some(0x34),
        (true, false, 4) => Some(0x35),
        _ => None,
    }
}

// The load whose opcode a byte is.
pub fn load_at(byte: u8) -> Option<MemOp>
    ensures { MatchOption result (is_load byte ≡ false) (λ op. form_at byte ≡ Some (plain.plain (plain.load op 0 0))) }
{
    match byte {
        0x28 => Some(memory_op(false, 4, false)),
        0x29 => Some(memory_op(true, 8, false)),
        0x2c => Some(memory_op(false, 1, true)),
        0x2d => Some(memory_op(false, 1, false)),
        0x2e => Some(memory_op(false, 2, true)),
        0x2f => Some(memory_op(false, 2, false)),
        0x30 => Some(memory_op(true, 1, true)),
        0x31 => Some(memory_op(true, 1, false)),
        0x32 => Some(memory_op(true, 2, true)),
        0x33 => Some(memory_op(true, 2, false)),
        0x34 => Some(memory_op(true, 4, true)),
        0x35 => Some(memory_op(true, 4, false)),
        _ => None,
    }
}

// The store whose opcode a byte is.
pub fn store_at(byte: u8) -> Option<MemOp>
    ensures { MatchOption result (is_store byte ≡ false) (λ op. form_at byte ≡ Some (plain.plain (plain.store op 0 0))) }
{
    match byte {
        0x36 => Some(memory_op(false, 4, false)),
        0x37 => Some(memory_op(true, 8, false)),
        0x3a => Some(memory_op(false, 1, false)),
        0x3b => Some(memory_op(false, 2, false)),
        0x3c => Some(memory_op(true, 1, false)),
        0x3d => Some(memory_op(true, 2, false)),
        0x3e => Some(memory_op(true, 4, false)),
        _ => None,
    }
}

fn memory_op(wide: bool, size: u32, signed: bool) -> MemOp
    ensures { result ≡ record { wide = wide; size = size; signed = signed } }
{
    MemOp { wide, size, signed }
}

// The opcode of a store.
fn store_opcode(op: MemOp) -> Option<u8>
    ensures { MatchOption result (HasNoOpcode (plain.plain (plain.store op 0 0))) (λ byte. IsOpcode byte (plain.plain (plain.store op 0 0))) }
{
    match (op.signed, op.wide, op.size) {
        (false, false, 4) => Some(0x36),
        (false, true, 8) => Some(0x37),
        (false, false, 1) => Some(0x3a),
        (false, false, 2) => Some(0x3b),
        (false, true, 1) => Some(0x3c),
        (false, true, 2) => Some(0x3d),
        (false, true, 4) => Some(0x3e),
        _ => None,
    }
}

// The opcode of a sign extension.
fn extension_opcode(wide: bool, bits: u32) -> Option<u8>
    ensures { MatchOption result (HasNoOpcode (plain.plain (plain.sign_extend wide bits))) (λ byte. IsOpcode byte (plain.plain (plain.sign_extend wide bits))) }
{
    match (wide, bits) {
        (false, 8) => Some(0xc0),
        (false, 16) => Some(0xc1),
        (true, 8) => Some(0xc2),
        (true, 16) => Some(0xc3),
        (true, 32) => Some(0xc4),
        _ => None,
    }
}

// The operators stand in the order of their opcodes, once for each width.

fn rel_index(op: Rel) -> u8
    ensures below { result < 10 }
    ensures narrow { IsOpcode (0x46 + result) (plain.plain (plain.rel32 op)) }
    ensures wide { IsOpcode (0x51 + result) (plain.plain (plain.rel64 op)) }
{
    match op {
        Rel::Eq => 0,
        Rel::Ne => 1,
        Rel::LtS => 2,
        Rel::LtU => 3,
        Rel::GtS => 4,
        Rel::GtU => 5,
        Rel::LeS => 6,
        Rel::LeU => 7,
        Rel::GeS => 8,
        Rel::GeU => 9,
    }
}

fn un_index(op: Un) -> u8
    ensures below { result < 3 }
    ensures narrow { IsOpcode (0x67 + result) (plain.plain (plain.un32 op)) }
    ensures wide { IsOpcode (0x79 + result) (plain.plain (plain.un64 op)) }
{
    match op {
        Un::Clz => 0,
        Un::Ctz => 1,
        Un::Popcnt => 2,
    }
}

fn bin_index(op: Bin) -> u8
    ensures below { result < 15 }
    ensures narrow { IsOpcode (0x6a + result) (plain.plain (plain.bin32 op)) }
    ensures wide { IsOpcode (0x7c + result) (plain.plain (plain.bin64 op)) }
{
    match op {
        Bin::Add => 0,
        Bin::Sub => 1,
        Bin::Mul => 2,
        Bin::DivS => 3,
        Bin::DivU => 4,
        Bin::RemS => 5,
        Bin::RemU => 6,
        Bin::And => 7,
        Bin::Or => 8,
        Bin::Xor => 9,
        Bin::Shl => 10,
        Bin::ShrS => 11,
        Bin::ShrU => 12,
        Bin::Rotl => 13,
        Bin::Rotr => 14,
    }
}

fn rel_at(index: u8) -> Rel
    requires { index < 10 }
    ensures { slice_get comparisons index ≡ Some result }
{
    match index {
        0 => Rel::Eq,
        1 => Rel::Ne,
        2 => Rel::LtS,
        3 => Rel::LtU,
        4 => Rel::GtS,
        5 => Rel::GtU,
        6 => Rel::LeS,
        7 => Rel::LeU,
        8 => Rel::GeS,
        9 => Rel::GeU,
        _ => unreachable!(),
    }
}

fn un_at(index: u8) -> Un
    requires { index < 3 }
    ensures { slice_get counts index ≡ Some result }
{
    match index {
        0 => Un::Clz,
        1 => Un::Ctz,
        2 => Un::Popcnt,
        _ => unreachable!(),
    }
}

fn bin_at(index: u8) -> Bin
    requires { index < 15 }
    ensures { slice_get operators index ≡ Some result }
{
    match index {
        0 => Bin::Add,
        1 => Bin::Sub,
        2 => Bin::Mul,
        3 => Bin::DivS,
        4 => Bin::DivU,
        5 => Bin::RemS,
        6 => Bin::RemU,
        7 => Bin::And,
        8 => Bin::Or,
        9 => Bin::Xor,
        10 => Bin::Shl,
        11 => Bin::ShrS,
        12 => Bin::ShrU,
        13 => Bin::Rotl,
        14 => Bin::Rotr,
        _ => unreachable!(),
    }
}
