//! Instructions.

ghost use Rattle.std.specs.Prelude.{◌≡◌, ◌≤◌, ◌++◌, [], IfOk, OnOk, map, length, take};
ghost use Rattle.wasm_tree.specs.Views.{instr_of};
ghost use Rattle.wat_lang.specs.declared.parts.Space.TheVariants as spaces;
ghost use Rattle.wat_lang.specs.Modules as spec;
ghost use Rattle.wat_lang.specs.Names.{names_at};
ghost use Rattle.wat_lang.specs.Rows.{number_rows};
ghost use Rattle.wat_grammar.specs.Views.{form_of, mark_of};
ghost use Rattle.wat_read_names.specs.Bound.{space_names};
ghost use Rattle.wat_read_tokens.specs.Marks.{marks_of};

use crate::immediates::{align_in, block_type, offset_in};
use crate::uses::{first_label, first_used, labels_used};
use crate::words::{word_32_in, word_64_in};
use sem_words::List;
use std::alloc::{AllocError, Global};
use wasm_tree::Instr;
use wat_grammar::{Form, Mark};
use wat_lang::Space;
use wat_marks::MarkedToken;
use wat_read_labels::Labels;
use wat_read_names::{Ids, Spaces};
use wat_read_tokens::Wanted;

fn branch_table(
    alloc: Global,
    labels: &Labels<'_>,
    parts: &[MarkedToken<'_>],
) -> Result<Instr, AllocError>
    requires { number_rows (marks_of parts.now) ≡ [] }
    ensures { IfOk result (λ i. instr_of i ≡ spec.table_of (spec.used (λ _. labels.now) spaces.Label (marks_of parts.now))) }
{
    let mut numbers = labels_used(alloc, labels, parts)?;
    let default = match numbers.pop() {
        Some(last) => last,
        None => 0,
    };
    Ok(Instr::BrTable(List::from_vec(numbers), default))
}

/// The instruction of a form, with the immediates that stand behind its name.
fn with_immediates(
    alloc: Global,
    spaces: &Spaces<'_>,
    locals: &Ids<'_>,
    labels: &Labels<'_>,
    parts: &[MarkedToken<'_>],
    form: Form,
) -> Result<Instr, AllocError>
    requires { number_rows (marks_of parts.now) ≡ [] }
    ensures { IfOk result (λ i. instr_of i ≡ spec.with_immediates (names_at (space_names spaces.now) locals.now labels.now) (marks_of parts.now) (form_of form)) }
{
    match form {
        Form::Unreachable => Ok(Instr::Unreachable),
        Form::Nop => Ok(Instr::Nop),
        Form::Block => Ok(Instr::Block(block_type(parts))),
        Form::Loop => Ok(Instr::Loop(block_type(parts))),
        Form::If => Ok(Instr::If(block_type(parts))),
        Form::Else => Ok(Instr::Else),
        Form::End => Ok(Instr::End),
        Form::Br => Ok(Instr::Br(first_label(labels, parts))),
        Form::BrIf => Ok(Instr::BrIf(first_label(labels, parts))),
        Form::BrTable => branch_table(alloc, labels, parts),
        Form::Return => Ok(Instr::Return),
        Form::Call => Ok(Instr::Call(first_used(&spaces.functions, Space::Func, parts))),
        Form::CallIndirect => Ok(Instr::CallIndirect(first_used(
            &spaces.types,
            Space::Type,
            parts,
        ))),
        Form::Drop => Ok(Instr::Drop),
        Form::Select => Ok(Instr::Select),
        Form::LocalGet => Ok(Instr::LocalGet(first_used(locals, Space::Local, parts))),
        Form::LocalSet => Ok(Instr::LocalSet(first_used(locals, Space::Local, parts))),
        Form::LocalTee => Ok(Instr::LocalTee(first_used(locals, Space::Local, parts))),
        Form::GlobalGet => Ok(Instr::GlobalGet(first_used(&spaces.globals, Space::Global, parts))),
        Form::GlobalSet => Ok(Instr::GlobalSet(first_used(&spaces.globals, Space::Global, parts))),
        Form::Load(access) => {
            let op = access.op();
            Ok(Instr::Load(op, align_in(op, parts), offset_in(parts)))
        }
        Form::Store(access) => {
            let op = access.op();
            Ok(Instr::Store(op, align_in(op, parts), offset_in(parts)))
        }
        Form::MemorySize => Ok(Instr::MemorySize),
        Form::MemoryCopy => Ok(Instr::MemoryCopy),
        Form::MemoryFill => Ok(Instr::MemoryFill),
        Form::Const32 => Ok(Instr::Const32(word_32_in(parts))),
        Form::Const64 => Ok(Instr::Const64(word_64_in(parts))),
        Form::Eqz32 => Ok(Instr::Eqz32),
        Form::Eqz64 => Ok(Instr::Eqz64),
        Form::Rel32(op) => Ok(Instr::Rel32(op)),
        Form::Rel64(op) => Ok(Instr::Rel64(op)),
        Form::Un32(op) => Ok(Instr::Un32(op)),
        Form::Un64(op) => Ok(Instr::Un64(op)),
        Form::Bin32(op) => Ok(Instr::Bin32(op)),
        Form::Bin64(op) => Ok(Instr::Bin64(op)),
        Form::Wrap => Ok(Instr::Wrap),
        Form::ExtendS => Ok(Instr::ExtendS),
        Form::ExtendU => Ok(Instr::ExtendU),
        Form::SignExtend { wide, bits } => Ok(Instr::SignExtend {
            wide,
            bits: u32::from(bits),
        }),
    }
}

/// How many tokens stand before the next instruction.
fn before_instruction(parts: &[MarkedToken<'_>]) -> usize
    ensures within { result ≤ length parts.now }
    ensures value { marks_of (take result parts.now) ≡ spec.immediates_in (marks_of parts.now) }
{
    let mut n = 0;
    while n < parts.len() {
        if Wanted::Instruction.is(parts[n].mark) {
            return n;
        }
        n += 1;
    }
    n
}

/// Appends the instruction that a token begins, if it begins one.
pub fn push_instr(
    alloc: Global,
    list: &mut Vec<Instr>,
    spaces: &Spaces<'_>,
    locals: &Ids<'_>,
    labels: &Labels<'_>,
    mark: Mark,
    behind: &[MarkedToken<'_>],
) -> Result<(), AllocError>
    requires { number_rows (marks_of behind.now) ≡ [] }
    ensures { OnOk result (map instr_of list.new.items ≡ map instr_of list.old.items ++ spec.instruction_at (names_at (space_names spaces.now) locals.now labels.now) (marks_of behind.now) (mark_of mark)) }
{
    match mark {
        Mark::Instruction(form) => {
            let parts = &behind[..before_instruction(behind)];
            let instr = with_immediates(alloc, spaces, locals, labels, parts, form)?;
            if list.push(instr).is_err() {
                return Err(AllocError);
            }
            Ok(())
        }
        _ => Ok(()),
    }
}
