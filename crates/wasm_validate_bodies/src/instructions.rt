// One instruction of a pass over a body.

ghost use Rattle.std.specs.Prelude.{◌≡◌, Ok, nat_le, MatchResult};
ghost use Rattle.wasm_lang.specs.Instructions as plain;
ghost use Rattle.wasm_tree.specs.Views.{instr_of};
ghost use Rattle.wasm_lang_valid.specs.declared.rule.Rule.TheVariants.{NoMemory, Alignment as AlignmentRule};
ghost use Rattle.wasm_lang_valid.specs.State.{applied, step};
ghost use Rattle.wasm_lang_valid.specs.Typing;
ghost use Rattle.wasm_lang_valid.specs.Typing.{listed, unless, Fixed};
ghost use Rattle.wasm_validate_bodies.specs.Blocks.{FaultIs};
ghost use Rattle.wasm_validate_bodies.specs.Scopes.{outside};

use crate::blocks::Blocks;
use crate::fault::Fault;
use crate::scope::{Scope, result_of};
use wasm_lang::ValType;
use wasm_lang::ValType::{I32, I64};
use wasm_lang_valid::{Opening, Rule};
use wasm_tree::Instr;

/// Takes one instruction.
pub fn check(blocks: &mut Blocks, scope: &Scope<'_>, instr: &Instr) -> Result<(), Fault>
    ensures { MatchResult result (λ _. step (outside scope.now) blocks.old (instr_of instr.now) ≡ Ok blocks.new) (λ e. FaultIs e (step (outside scope.now) blocks.old (instr_of instr.now))) }
{
    match instr {
        Instr::Unreachable => blocks.leaves(&[]),
        Instr::Nop => blocks.fixed(&[], None),
        Instr::Block(r) => blocks.open(Opening::Straight, *r),
        Instr::Loop(r) => blocks.open(Opening::Back, *r),
        Instr::If(r) => {
            blocks.fixed(&[I32], None)?;
            blocks.open(Opening::FirstArm, *r)
        }
        Instr::Else => blocks.turn(),
        Instr::End => blocks.end(),
        Instr::Br(l) => branch(blocks, scope, *l),
        Instr::BrIf(l) => branch_if(blocks, scope, *l),
        Instr::BrTable(labels, default) => {
            branch_table(blocks, scope, labels.as_slice(), *default)
        },
        Instr::Return => leave(blocks, scope),
        Instr::Call(f) => call(blocks, scope, *f),
        Instr::CallIndirect(t) => call_indirect(blocks, scope, *t),
        Instr::Drop => blocks.discard(),
        Instr::Select => blocks.select(),
        Instr::LocalGet(x) => get_local(blocks, scope, *x),
        Instr::LocalSet(x) => set_local(blocks, scope, *x),
        Instr::LocalTee(x) => tee_local(blocks, scope, *x),
        Instr::GlobalGet(x) => get_global(blocks, scope, *x),
        Instr::GlobalSet(x) => set_global(blocks, scope, *x),
        Instr::Load(op, align, _) => {
            access(
                blocks,
                scope,
                &[I32],
                Some(kind_of(op.wide)),
                *align,
                op.size,
            )
        }
        Instr::Store(op, align, _) => {
            access(
                blocks,
                scope,
                &[kind_of(op.wide), I32],
                None,
                *align,
                op.size,
            )
        }
        Instr::MemorySize => with_memory(blocks, scope, &[], Some(I32)),
        Instr::MemoryCopy => with_memory(blocks, scope, &[I32, I32, I32], None),
        Instr::MemoryFill => with_memory(blocks, scope, &[I32, I32, I32], None),
        Instr::Const32(_) => blocks.fixed(&[], Some(I32)),
        Instr::Const64(_) => blocks.fixed(&[], Some(I64)),
        Instr::Eqz32 => blocks.fixed(&[I32], Some(I32)),
        Instr::Eqz64 => blocks.fixed(&[I64], Some(I32)),
        Instr::Rel32(_) => blocks.fixed(&[I32, I32], Some(I32)),
        Instr::Rel64(_) => blocks.fixed(&[I64, I64], Some(I32)),
        Instr::Un32(_) => blocks.fixed(&[I32], Some(I32)),
        Instr::Un64(_) => blocks.fixed(&[I64], Some(I64)),
        Instr::Bin32(_) => blocks.fixed(&[I32, I32], Some(I32)),
        Instr::Bin64(_) => blocks.fixed(&[I64, I64], Some(I64)),
        Instr::Wrap => blocks.fixed(&[I64], Some(I32)),
        Instr::ExtendS => blocks.fixed(&[I32], Some(I64)),
        Instr::ExtendU => blocks.fixed(&[I32], Some(I64)),
        Instr::SignExtend { wide, .. } => blocks.fixed(&[kind_of(*wide)], Some(kind_of(*wide))),
    }
}

// The type of 64 bits, or of 32.
fn kind_of(wide: bool) -> ValType
    ensures { result ≡ Typing.kind_of wide }
{
    if wide { I64 } else { I32 }
}

// A branch.
fn branch(blocks: &mut Blocks, scope: &Scope<'_>, label: u32) -> Result<(), Fault>
    ensures { MatchResult result (λ _. step (outside scope.now) blocks.old (plain.br label) ≡ Ok blocks.new) (λ e. FaultIs e (step (outside scope.now) blocks.old (plain.br label))) }
{
    match blocks.label(label) {
        Some(Some(t)) => blocks.leaves(&[t]),
        Some(None) => blocks.leaves(&[]),
        None => Err(Fault::Broken(Rule::NoLabel)),
    }
}

// A branch, if an operand isn't zero.
fn branch_if(blocks: &mut Blocks, scope: &Scope<'_>, label: u32) -> Result<(), Fault>
    ensures { MatchResult result (λ _. step (outside scope.now) blocks.old (plain.br_if label) ≡ Ok blocks.new) (λ e. FaultIs e (step (outside scope.now) blocks.old (plain.br_if label))) }
{
    match blocks.label(label) {
        Some(Some(t)) => blocks.fixed(&[I32, t], Some(t)),
        Some(None) => blocks.fixed(&[I32], None),
        None => Err(Fault::Broken(Rule::NoLabel)),
    }
}

// A branch by a table of labels.
fn branch_table(
    blocks: &mut Blocks,
    scope: &Scope<'_>,
    labels: &[u32],
    default: u32,
) -> Result<(), Fault>
    ensures { MatchResult result (λ _. step (outside scope.now) blocks.old (plain.br_table labels.now default) ≡ Ok blocks.new) (λ e. FaultIs e (step (outside scope.now) blocks.old (plain.br_table labels.now default))) }
{
    blocks.all_labels(labels)?;
    let alike = blocks.alike(labels, default);
    match blocks.label(default) {
        Some(Some(t)) => blocks.leaves(&[I32, t])?,
        Some(None) => blocks.leaves(&[I32])?,
        None => return Err(Fault::Broken(Rule::NoLabel)),
    }
    if alike {
        Ok(())
    } else {
        Err(Fault::Broken(Rule::LabelsDiffer))
    }
}

// The end of the function.
fn leave(blocks: &mut Blocks, scope: &Scope<'_>) -> Result<(), Fault>
    ensures { MatchResult result (λ _. step (outside scope.now) blocks.old (plain.return) ≡ Ok blocks.new) (λ e. FaultIs e (step (outside scope.now) blocks.old (plain.return))) }
{
    match scope.result {
        Some(t) => blocks.leaves(&[t]),
        None => blocks.leaves(&[]),
    }
}

// A call.
fn call(blocks: &mut Blocks, scope: &Scope<'_>, function: u32) -> Result<(), Fault>
    ensures { MatchResult result (λ _. step (outside scope.now) blocks.old (plain.call function) ≡ Ok blocks.new) (λ e. FaultIs e (step (outside scope.now) blocks.old (plain.call function))) }
{
    match scope.type_of(function) {
        Some(called) => blocks.call(called.params.as_slice(), result_of(called)),
        None => Err(Fault::Broken(Rule::NoFunction)),
    }
}

// A call of a table's entry.
fn call_indirect(blocks: &mut Blocks, scope: &Scope<'_>, number: u32) -> Result<(), Fault>
    ensures { MatchResult result (λ _. step (outside scope.now) blocks.old (plain.call_indirect number) ≡ Ok blocks.new) (λ e. FaultIs e (step (outside scope.now) blocks.old (plain.call_indirect number))) }
{
    match scope.function_type(number) {
        Some(_) if !scope.table => Err(Fault::Broken(Rule::NoTable)),
        Some(called) => blocks.call_indirect(called.params.as_slice(), result_of(called)),
        None => Err(Fault::Broken(Rule::NoType)),
    }
}

// Reads a local.
fn get_local(blocks: &mut Blocks, scope: &Scope<'_>, x: u32) -> Result<(), Fault>
    ensures { MatchResult result (λ _. step (outside scope.now) blocks.old (plain.plain (plain.local_get x)) ≡ Ok blocks.new) (λ e. FaultIs e (step (outside scope.now) blocks.old (plain.plain (plain.local_get x)))) }
{
    match scope.local(x) {
        Some(t) => blocks.fixed(&[], Some(t)),
        None => Err(Fault::Broken(Rule::NoLocal)),
    }
}

// Writes a local.
fn set_local(blocks: &mut Blocks, scope: &Scope<'_>, x: u32) -> Result<(), Fault>
    ensures { MatchResult result (λ _. step (outside scope.now) blocks.old (plain.plain (plain.local_set x)) ≡ Ok blocks.new) (λ e. FaultIs e (step (outside scope.now) blocks.old (plain.plain (plain.local_set x)))) }
{
    match scope.local(x) {
        Some(t) => blocks.fixed(&[t], None),
        None => Err(Fault::Broken(Rule::NoLocal)),
    }
}

// Writes a local, and keeps the operand.
fn tee_local(blocks: &mut Blocks, scope: &Scope<'_>, x: u32) -> Result<(), Fault>
    ensures { MatchResult result (λ _. step (outside scope.now) blocks.old (plain.plain (plain.local_tee x)) ≡ Ok blocks.new) (λ e. FaultIs e (step (outside scope.now) blocks.old (plain.plain (plain.local_tee x)))) }
{
    match scope.local(x) {
        Some(t) => blocks.fixed(&[t], Some(t)),
        None => Err(Fault::Broken(Rule::NoLocal)),
    }
}

// Reads a global.
fn get_global(blocks: &mut Blocks, scope: &Scope<'_>, x: u32) -> Result<(), Fault>
    ensures { MatchResult result (λ _. step (outside scope.now) blocks.old (plain.plain (plain.global_get x)) ≡ Ok blocks.new) (λ e. FaultIs e (step (outside scope.now) blocks.old (plain.plain (plain.global_get x)))) }
{
    match scope.global(x) {
        Some(global) => blocks.fixed(&[], Some(global.kind)),
        None => Err(Fault::Broken(Rule::NoGlobal)),
    }
}

// Writes a global, which mustn't be constant.
fn set_global(blocks: &mut Blocks, scope: &Scope<'_>, x: u32) -> Result<(), Fault>
    ensures { MatchResult result (λ _. step (outside scope.now) blocks.old (plain.plain (plain.global_set x)) ≡ Ok blocks.new) (λ e. FaultIs e (step (outside scope.now) blocks.old (plain.plain (plain.global_set x)))) }
{
    let global = match scope.global(x) {
        Some(global) => global,
        None => return Err(Fault::Broken(Rule::NoGlobal)),
    };
    blocks.fixed(&[global.kind], None)?;
    if global.mutable {
        Ok(())
    } else {
        Err(Fault::Broken(Rule::ConstantGlobal))
    }
}

// Takes operands of these types and gives one, or none, where there is a memory.
fn with_memory(
    blocks: &mut Blocks,
    scope: &Scope<'_>,
    takes: &[ValType],
    gives: Option<ValType>,
) -> Result<(), Fault>
    ensures { MatchResult result (λ _. applied (unless (outside scope.now).memory NoMemory (Fixed takes.now (listed gives))) (Ok tt) blocks.old ≡ Ok blocks.new) (λ e. FaultIs e (applied (unless (outside scope.now).memory NoMemory (Fixed takes.now (listed gives))) (Ok tt) blocks.old)) }
{
    if scope.memory {
        blocks.fixed(takes, gives)
    } else {
        Err(Fault::Broken(Rule::NoMemory))
    }
}

// A load or a store of so many bytes.
fn access(
    blocks: &mut Blocks,
    scope: &Scope<'_>,
    takes: &[ValType],
    gives: Option<ValType>,
    align: u32,
    size: u32,
) -> Result<(), Fault>
    ensures { MatchResult result (λ _. applied (unless (outside scope.now).memory NoMemory (Fixed takes.now (listed gives))) (unless (nat_le align (Typing.natural size)) AlignmentRule tt) blocks.old ≡ Ok blocks.new) (λ e. FaultIs e (applied (unless (outside scope.now).memory NoMemory (Fixed takes.now (listed gives))) (unless (nat_le align (Typing.natural size)) AlignmentRule tt) blocks.old)) }
{
    with_memory(blocks, scope, takes, gives)?;
    if align <= natural(size) {
        Ok(())
    } else {
        Err(Fault::Broken(Rule::Alignment))
    }
}

// The alignment of so many bytes, as the exponent of a power of two.
fn natural(size: u32) -> u32
    ensures { result ≡ Typing.natural size }
{
    if size >= 8 {
        3
    } else if size >= 4 {
        2
    } else if size >= 2 {
        1
    } else {
        0
    }
}
