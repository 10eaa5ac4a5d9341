//! The names of instructions.

ghost use Rattle.std.specs.Prelude.{◌≡◌, [], ◌∷◌, ◌++◌, OnOk, codes, if◌then◌else◌};
ghost use Rattle.wasm_tree.specs.Views.{instr_of};
ghost use Rattle.wat_lang.specs.Words as words;
ghost use Rattle.wat_lang.specs.Words.{name_of, is_whole, narrow_bits, sign_suffix};
ghost use Rattle.wat_lang.specs.Printing.{word};
ghost use Rattle.wat_print.specs.Put.{written, put, load_part, store_part, extension_part};

use crate::output::Output;
use sem_words::{Bin, Rel, Un};
use std::alloc::AllocError;
use wasm_lang::MemOp;
use wasm_tree::Instr;

fn rel_name(op: Rel) -> &'static [u8]
    ensures { result.now ≡ words.rel_name op }
{
    match op {
        Rel::Eq => b"eq",
        Rel::Ne => b"ne",
        Rel::LtS => b"lt_s",
        Rel::LtU => b"lt_u",
        Rel::GtS => b"gt_s",
        Rel::GtU => b"gt_u",
        Rel::LeS => b"le_s",
        Rel::LeU => b"le_u",
        Rel::GeS => b"ge_s",
        Rel::GeU => b"ge_u",
    }
}

fn un_name(op: Un) -> &'static [u8]
    ensures { result.now ≡ words.un_name op }
{
    match op {
        Un::Clz => b"clz",
        Un::Ctz => b"ctz",
        Un::Popcnt => b"popcnt",
    }
}

fn bin_name(op: Bin) -> &'static [u8]
    ensures { result.now ≡ words.bin_name op }
{
    match op {
        Bin::Add => b"add",
        Bin::Sub => b"sub",
        Bin::Mul => b"mul",
        Bin::DivS => b"div_s",
        Bin::DivU => b"div_u",
        Bin::RemS => b"rem_s",
        Bin::RemU => b"rem_u",
        Bin::And => b"and",
        Bin::Or => b"or",
        Bin::Xor => b"xor",
        Bin::Shl => b"shl",
        Bin::ShrS => b"shr_s",
        Bin::ShrU => b"shr_u",
        Bin::Rotl => b"rotl",
        Bin::Rotr => b"rotr",
    }
}

/// Whether an access reads or writes all bytes of its operand.
fn is_whole(op: MemOp) -> bool
    ensures { result ≡ words.is_whole op }
{
    if op.wide { op.size == 8 } else { op.size == 4 }
}

/// The name of a load of fewer bytes than its operand has, behind its type.
fn narrow_load(size: u32, signed: bool) -> &'static [u8]
    ensures { result.now ≡ codes "load" ++ (narrow_bits size ++ sign_suffix signed) }
{
    match (size, signed) {
        (1, true) => b"load8_s",
        (1, false) => b"load8_u",
        (2, true) => b"load16_s",
        (2, false) => b"load16_u",
        (_, true) => b"load32_s",
        (_, false) => b"load32_u",
    }
}

fn load_name(op: MemOp) -> &'static [u8]
    ensures { result.now ≡ load_part op }
{
    if is_whole(op) {
        b"load"
    } else {
        narrow_load(op.size, op.signed)
    }
}

fn narrow_store(size: u32) -> &'static [u8]
    ensures { result.now ≡ codes "store" ++ narrow_bits size }
{
    match size {
        1 => b"store8",
        2 => b"store16",
        _ => b"store32",
    }
}

fn store_name(op: MemOp) -> &'static [u8]
    ensures { result.now ≡ store_part op }
{
    if is_whole(op) {
        b"store"
    } else {
        narrow_store(op.size)
    }
}

fn extension_name(bits: u32) -> &'static [u8]
    ensures { result.now ≡ extension_part bits }
{
    match bits {
        8 => b"extend8_s",
        16 => b"extend16_s",
        _ => b"extend32_s",
    }
}

/// The name of an instruction.
pub fn put_name(out: &mut Output, instr: &Instr) -> Result<(), AllocError>
    ensures { OnOk result (written out.new ≡ put (written out.old) (word (name_of (instr_of instr.now)) ∷ [])) }
{
    match instr {
        Instr::Unreachable => out.word(b"unreachable"),
        Instr::Nop => out.word(b"nop"),
        Instr::Block(_) => out.word(b"block"),
        Instr::Loop(_) => out.word(b"loop"),
        Instr::If(_) => out.word(b"if"),
        Instr::Else => out.word(b"else"),
        Instr::End => out.word(b"end"),
        Instr::Br(_) => out.word(b"br"),
        Instr::BrIf(_) => out.word(b"br_if"),
        Instr::BrTable(_, _) => out.word(b"br_table"),
        Instr::Return => out.word(b"return"),
        Instr::Call(_) => out.word(b"call"),
        Instr::CallIndirect(_) => out.word(b"call_indirect"),
        Instr::Drop => out.word(b"drop"),
        Instr::Select => out.word(b"select"),
        Instr::LocalGet(_) => out.word(b"local.get"),
        Instr::LocalSet(_) => out.word(b"local.set"),
        Instr::LocalTee(_) => out.word(b"local.tee"),
        Instr::GlobalGet(_) => out.word(b"global.get"),
        Instr::GlobalSet(_) => out.word(b"global.set"),
        Instr::Load(op, _, _) => out.typed(op.wide, load_name(*op)),
        Instr::Store(op, _, _) => out.typed(op.wide, store_name(*op)),
        Instr::MemorySize => out.word(b"memory.size"),
        Instr::MemoryCopy => out.word(b"memory.copy"),
        Instr::MemoryFill => out.word(b"memory.fill"),
        Instr::Const32(_) => out.word(b"i32.const"),
        Instr::Const64(_) => out.word(b"i64.const"),
        Instr::Eqz32 => out.word(b"i32.eqz"),
        Instr::Eqz64 => out.word(b"i64.eqz"),
        Instr::Rel32(op) => out.typed(false, rel_name(*op)),
        Instr::Rel64(op) => out.typed(true, rel_name(*op)),
        Instr::Un32(op) => out.typed(false, un_name(*op)),
        Instr::Un64(op) => out.typed(true, un_name(*op)),
        Instr::Bin32(op) => out.typed(false, bin_name(*op)),
        Instr::Bin64(op) => out.typed(true, bin_name(*op)),
        Instr::Wrap => out.word(b"i32.wrap_i64"),
        Instr::ExtendS => out.word(b"i64.extend_i32_s"),
        Instr::ExtendU => out.word(b"i64.extend_i32_u"),
        Instr::SignExtend { wide, bits } => out.typed(*wide, extension_name(*bits)),
    }
}
