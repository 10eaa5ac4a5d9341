//! Instructions and code.

ghost use Rattle.std.specs.Prelude.{◌≡◌, [], ◌∷◌, OnOk, map};
ghost use Rattle.std.specs.List.{flat_map};
ghost use Rattle.wasm_tree.specs.Views.{code_of, instr_of};
ghost use Rattle.wat_lang.specs.Printing.{numbers, number, result_pieces, access_pieces, immediates, instruction_pieces, instruction_line, folded_instruction, code_pieces, constant_pieces};
ghost use Rattle.wat_print.specs.Put.{written, put, label_pieces};

use crate::names::put_name;
use crate::output::Output;
use crate::parts::{put_type, put_use};
use sem_words::{signed32, signed64};
use std::alloc::{AllocError, Global};
use wasm_lang::ValType;
use wasm_tree::{Code, Instr};

#[tactic(auto, using(crate::proofs::Puts::puts))]
fn put_result(out: &mut Output, kind: Option<ValType>) -> Result<(), AllocError>
    ensures { OnOk result (written out.new ≡ put (written out.old) (result_pieces kind)) }
{
    match kind {
        None => Ok(()),
        Some(kind) => {
            out.open(b"result")?;
            put_type(out, kind)?;
            out.close()
        }
    }
}

#[tactic(auto, using(crate::proofs::Puts::puts))]
pub fn put_numbers(out: &mut Output, list: &[u32]) -> Result<(), AllocError>
    ensures { OnOk result (written out.new ≡ put (written out.old) (numbers list.now)) }
{
    for n in list {
        out.number(*n)?;
    }
    Ok(())
}

#[tactic(auto, using(crate::proofs::Puts::puts))]
fn put_labels(out: &mut Output, labels: &[u32], default: u32) -> Result<(), AllocError>
    ensures { OnOk result (written out.new ≡ put (written out.old) (label_pieces labels.now default)) }
{
    put_numbers(out, labels)?;
    out.number(default)
}

#[tactic(auto, using(crate::proofs::Puts::puts))]
fn put_access(out: &mut Output, align: u32, offset: u32) -> Result<(), AllocError>
    ensures { OnOk result (written out.new ≡ put (written out.old) (access_pieces align offset)) }
{
    out.keyed(b"offset=", u64::from(offset))?;
    out.keyed(b"align=", 1 << align.min(63))
}

/// What stands behind the name of an instruction.
#[tactic(auto, using(crate::proofs::Puts::puts))]
fn put_immediates(out: &mut Output, instr: &Instr) -> Result<(), AllocError>
    ensures { OnOk result (written out.new ≡ put (written out.old) (immediates (instr_of instr.now))) }
{
    match instr {
        Instr::Block(kind) => put_result(out, *kind),
        Instr::Loop(kind) => put_result(out, *kind),
        Instr::If(kind) => put_result(out, *kind),
        Instr::Br(label) => out.number(*label),
        Instr::BrIf(label) => out.number(*label),
        Instr::BrTable(labels, default) => put_labels(out, labels.as_slice(), *default),
        Instr::Call(function) => out.number(*function),
        Instr::CallIndirect(function_type) => put_use(out, *function_type),
        Instr::LocalGet(local) => out.number(*local),
        Instr::LocalSet(local) => out.number(*local),
        Instr::LocalTee(local) => out.number(*local),
        Instr::GlobalGet(global) => out.number(*global),
        Instr::GlobalSet(global) => out.number(*global),
        Instr::Load(_, align, offset) => put_access(out, *align, *offset),
        Instr::Store(_, align, offset) => put_access(out, *align, *offset),
        Instr::Const32(word) => out.signed(i64::from(signed32(*word))),
        Instr::Const64(word) => out.signed(signed64(*word)),
        _ => Ok(()),
    }
}

#[tactic(auto, using(crate::proofs::Puts::puts))]
fn put_instr(out: &mut Output, instr: &Instr) -> Result<(), AllocError>
    ensures { OnOk result (written out.new ≡ put (written out.old) (instruction_pieces (instr_of instr.now))) }
{
    put_name(out, instr)?;
    put_immediates(out, instr)
}

/// Instructions, each on a line.
#[tactic(auto, using(crate::proofs::Puts::puts, crate::proofs::Lists::lists))]
fn put_lines(out: &mut Output, code: &[Instr]) -> Result<(), AllocError>
    ensures { OnOk result (written out.new ≡ put (written out.old) (flat_map instruction_line (map instr_of code.now))) }
{
    for instr in code {
        put_instr(out, instr)?;
        out.line_end()?;
    }
    Ok(())
}

/// Instructions, each in parentheses.
#[tactic(auto, using(crate::proofs::Puts::puts, crate::proofs::Lists::lists))]
fn put_folded(out: &mut Output, code: &[Instr]) -> Result<(), AllocError>
    ensures { OnOk result (written out.new ≡ put (written out.old) (flat_map folded_instruction (map instr_of code.now))) }
{
    for instr in code {
        out.parenthesis()?;
        put_instr(out, instr)?;
        out.close()?;
    }
    Ok(())
}

/// The expression of a first value or an offset, without its end.
#[tactic(auto, using(crate::proofs::Puts::puts, crate::proofs::Lists::lists))]
pub fn put_constant(out: &mut Output, code: &[Instr]) -> Result<(), AllocError>
    ensures { OnOk result (written out.new ≡ put (written out.old) (constant_pieces (map instr_of code.now))) }
{
    let count = code.len().saturating_sub(1);
    put_folded(out, &code[..count])
}

#[tactic(auto, using(crate::proofs::Puts::puts, crate::proofs::Lists::lists))]
fn put_list(out: &mut Output, code: &[Instr]) -> Result<(), AllocError>
    ensures { OnOk result (written out.new ≡ put (written out.old) (code_pieces (map instr_of code.now))) }
{
    let count = code.len().saturating_sub(1);
    put_lines(out, &code[..count])
}

/// The code of a function, without its end.
pub fn put_code(alloc: Global, out: &mut Output, code: &Code<'_>) -> Result<(), AllocError>
    ensures { OnOk result (written out.new ≡ put (written out.old) (code_pieces (code_of code.now))) }
{
    let instructions = code.instrs(alloc)?;
    put_list(out, instructions.as_slice())
}
