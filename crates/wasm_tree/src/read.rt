//! Reading instructions (WebAssembly Core 1.0, section 5.4; of version 2.0 the sign extensions,
//! `memory.copy` and `memory.fill`).
#![tactic(auto, using(crate::proofs::Slices::stands_trans, crate::proofs::Slices::stands_self), unfolding(wasm_lang::specs::ReadingCode::after_opcode, wasm_lang::specs::ReadingCode::opcode_fault, wasm_lang::specs::Opcodes::form_at))]

ghost use Rattle.std.specs.Prelude.{◌≡◌, ◌<◌, ◌≤◌, [], false, Some, None, IfOk};
ghost use Rattle.sem_words.specs.Lists.{list_items};
ghost use Rattle.wasm_lang.specs.Instructions as plain;
ghost use Rattle.wasm_lang.specs.Opcodes.{bare_at, form_at};
ghost use Rattle.wasm_lang.specs.Reading as reading;
ghost use Rattle.wasm_lang.specs.ReadingCode.{instruction_field, after_opcode, access_field, immediates, copy_or_fill, opcode_fault};
ghost use Rattle.wasm_tree.specs.Inputs.{input_of, IsField, IsRead, Continues};
ghost use Rattle.wasm_tree.specs.Operators.{is_load, is_store};
ghost use Rattle.wasm_tree.specs.Views.{instr_of};

use crate::error::ReadError;
use crate::input::Input;
use crate::instr::Instr;
use crate::opcodes::{load_at, plain_instr, store_at};
use sem_words::List;
use std::alloc::Global;
use wasm_lang::{Fault, Row};

/// The instruction at a place, inside a section, and what follows it.
pub fn read_instr<'a>(alloc: Global, input: Input<'a>) -> Result<(Instr, Input<'a>), ReadError>
    ensures value { IsRead instr_of result (instruction_field (input_of input.entry)) }
    ensures follows { IfOk result (λ x. Continues x.1 input.entry) }
{
    let (opcode, rest) = input.byte(Row::SectionSize)?;
    if let Some(instr) = plain_instr(opcode) {
        return Ok((instr, rest));
    }
    read_immediates(alloc, input.at, opcode, rest)
}

// What follows an opcode that has immediates, or a byte that is no opcode.
fn read_immediates<'a>(
    alloc: Global,
    at: usize,
    opcode: u8,
    input: Input<'a>,
) -> Result<(Instr, Input<'a>), ReadError>
    requires { bare_at opcode ≡ None }
    ensures value { IsRead instr_of result (after_opcode at opcode (input_of input.entry)) }
    ensures follows { IfOk result (λ x. Continues x.1 input.entry) }
{
    if let Some(op) = load_at(opcode) {
        let ((align, offset), rest) = read_access(input)?;
        return Ok((Instr::Load(op, align, offset), rest));
    }
    if let Some(op) = store_at(opcode) {
        let ((align, offset), rest) = read_access(input)?;
        return Ok((Instr::Store(op, align, offset), rest));
    }
    if opcode <= 0x11 {
        return read_control(alloc, at, opcode, input);
    }
    Ok(read_other(at, opcode, input)?)
}

// The same for blocks, branches and calls.
fn read_control<'a>(
    alloc: Global,
    at: usize,
    opcode: u8,
    input: Input<'a>,
) -> Result<(Instr, Input<'a>), ReadError>
    requires control { opcode ≤ 0x11 }
    requires bare { bare_at opcode ≡ None }
    requires load { is_load opcode ≡ false }
    requires store { is_store opcode ≡ false }
    ensures value { IsRead instr_of result (after_opcode at opcode (input_of input.entry)) }
    ensures follows { IfOk result (λ x. Continues x.1 input.entry) }
{
    match opcode {
        0x02 => Ok(
            input
                .block_type()
                .map(|(kind, rest)| (Instr::Block(kind), rest))?,
        ),
        0x03 => Ok(
            input
                .block_type()
                .map(|(kind, rest)| (Instr::Loop(kind), rest))?,
        ),
        0x04 => Ok(
            input
                .block_type()
                .map(|(kind, rest)| (Instr::If(kind), rest))?,
        ),
        0x0c => Ok(number(input).map(|(label, rest)| (Instr::Br(label), rest))?),
        0x0d => Ok(number(input).map(|(label, rest)| (Instr::BrIf(label), rest))?),
        0x0e => read_br_table(alloc, input),
        0x10 => Ok(read_call(input)?),
        0x11 => Ok(read_call_indirect(input)?),
        _ => Err(ReadError::Refused(Fault {
            row: no_opcode(opcode),
            at,
        })),
    }
}

// The same for variables, constants and the memory, but not for loads and stores.
fn read_other<'a>(at: usize, opcode: u8, input: Input<'a>) -> Result<(Instr, Input<'a>), Fault>
    requires other { 0x11 < opcode }
    requires bare { bare_at opcode ≡ None }
    requires load { is_load opcode ≡ false }
    requires store { is_store opcode ≡ false }
    ensures value { IsField instr_of result (after_opcode at opcode (input_of input.entry)) }
    ensures follows { IfOk result (λ x. Continues x.1 input.entry) }
{
    match opcode {
        0x20 => number(input).map(|(local, rest)| (Instr::LocalGet(local), rest)),
        0x21 => number(input).map(|(local, rest)| (Instr::LocalSet(local), rest)),
        0x22 => number(input).map(|(local, rest)| (Instr::LocalTee(local), rest)),
        0x23 => number(input).map(|(global, rest)| (Instr::GlobalGet(global), rest)),
        0x24 => number(input).map(|(global, rest)| (Instr::GlobalSet(global), rest)),
        0x3f => input.exactly(0).map(|rest| (Instr::MemorySize, rest)),
        0x41 => read_const32(input),
        0x42 => input
            .integer(64)
            .map(|(word, rest)| (Instr::Const64(word), rest)),
        0xfc => read_copy_or_fill(input),
        _ => Err(Fault {
            row: no_opcode(opcode),
            at,
        }),
    }
}

// A number inside a section.
fn number<'a>(input: Input<'a>) -> Result<(u32, Input<'a>), Fault>
    ensures value { IsField (λ n. n) result (reading.u32 (input_of input.entry)) }
    ensures follows { IfOk result (λ x. Continues x.1 input.entry) }
{
    input.u32(Row::SectionSize)
}

fn read_br_table<'a>(alloc: Global, input: Input<'a>) -> Result<(Instr, Input<'a>), ReadError>
    ensures value { IsRead instr_of result (immediates (plain.br_table [] 0) (input_of input.entry)) }
    ensures follows { IfOk result (λ x. Continues x.1 input.entry) }
{
    let (labels, rest) = read_numbers(alloc, input)?;
    let (default, rest) = number(rest)?;
    Ok((Instr::BrTable(labels, default), rest))
}

fn read_call<'a>(input: Input<'a>) -> Result<(Instr, Input<'a>), Fault>
    ensures value { IsField instr_of result (immediates (plain.call 0) (input_of input.entry)) }
    ensures follows { IfOk result (λ x. Continues x.1 input.entry) }
{
    let (function, rest) = number(input)?;
    Ok((Instr::Call(function), rest))
}

fn read_call_indirect<'a>(input: Input<'a>) -> Result<(Instr, Input<'a>), Fault>
    ensures value { IsField instr_of result (immediates (plain.call_indirect 0) (input_of input.entry)) }
    ensures follows { IfOk result (λ x. Continues x.1 input.entry) }
{
    let (function_type, rest) = number(input)?;
    let rest = rest.exactly(0)?;
    Ok((Instr::CallIndirect(function_type), rest))
}

fn read_const32<'a>(input: Input<'a>) -> Result<(Instr, Input<'a>), Fault>
    ensures value { IsField instr_of result (immediates (plain.plain (plain.const32 0)) (input_of input.entry)) }
    ensures follows { IfOk result (λ x. Continues x.1 input.entry) }
{
    let (word, rest) = input.integer(32)?;
    Ok((Instr::Const32(word as u32), rest))
}

// Why a byte is no opcode.
fn no_opcode(byte: u8) -> Row
    ensures { result ≡ opcode_fault byte }
{
    match byte {
        0x2a | 0x2b | 0x38 | 0x39 | 0x43 | 0x44 => Row::Float,
        0x5b..=0x66 | 0x8b..=0xa6 | 0xa8..=0xab | 0xae..=0xbf => Row::Float,
        0x40 => Row::MemoryGrow,
        _ => Row::UnknownByte,
    }
}

/// A vector of numbers, inside a section, and what follows it.
pub fn read_numbers<'a>(
    alloc: Global,
    input: Input<'a>,
) -> Result<(List<u32>, Input<'a>), ReadError>
    ensures value { IsRead list_items result (reading.vec_field reading.u32 (input_of input.entry)) }
    ensures follows { IfOk result (λ x. Continues x.1 input.entry) }
{
    let (count, mut rest) = number(input)?;
    let mut numbers = List::new(alloc);
    for _i in 0..count {
        let (item, after) = number(rest)?;
        if numbers.push(item).is_err() {
            return Err(ReadError::Memory);
        }
        rest = after;
    }
    Ok((numbers, rest))
}

// An alignment and an offset.
fn read_access<'a>(input: Input<'a>) -> Result<((u32, u32), Input<'a>), Fault>
    ensures value { IsField (λ p. p) result (access_field (input_of input.entry)) }
    ensures follows { IfOk result (λ x. Continues x.1 input.entry) }
{
    let (align, rest) = number(input)?;
    let (offset, rest) = number(rest)?;
    Ok(((align, offset), rest))
}

// The number that tells `memory.copy` and `memory.fill` apart, and the bytes 0 after it.
fn read_copy_or_fill<'a>(input: Input<'a>) -> Result<(Instr, Input<'a>), Fault>
    ensures value { IsField instr_of result (reading.onto plain.plain (copy_or_fill (input_of input.entry))) }
    ensures follows { IfOk result (λ x. Continues x.1 input.entry) }
{
    let (operator, rest) = number(input)?;
    match operator {
        10 => {
            let rest = rest.exactly(0)?;
            let rest = rest.exactly(0)?;
            Ok((Instr::MemoryCopy, rest))
        }
        11 => {
            let rest = rest.exactly(0)?;
            Ok((Instr::MemoryFill, rest))
        }
        _ => Err(Fault {
            row: Row::UnknownByte,
            at: input.at,
        }),
    }
}
