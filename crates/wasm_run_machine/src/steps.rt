//! The instruction at a machine's place.
ghost use Rattle.std.specs.Prelude.{◌≡◌, ◌<◌, false, length, slice_get, IfOk};
ghost use Rattle.wasm_lang.specs.Instructions as flat;
ghost use Rattle.wasm_lang.specs.Instructions.{Instruction};
ghost use Rattle.wasm_tree.specs.Views.{module_of};
ghost use Rattle.wasm_run_frames.specs.Views.{machine_of};
ghost use Rattle.wasm_run_machine.specs.Functions.{AreFunctions, bodies_of};
ghost use Rattle.wasm_run_machine.specs.Kinds.{found_entry, is_free};
ghost use Rattle.wasm_run_machine.specs.Doing.{DoesIn, HaveForms};

use crate::{
    Function, Kind, branch_always, branch_by_table, branch_if, call, end, end_arm, has_type,
    kind_of, leave, open_block, open_if, open_loop, plain,
};
use sem_words::TrapKind;
use session_lang::End;
use std::alloc::{AllocError, Global};
use wasm_run_flat::Body;
use wasm_run_frames::{Flow, Machine};
use wasm_tree::Module;

// `call`.
fn call_by_number(
    alloc: Global,
    module: &Module<'_>,
    functions: &[Function],
    body: &Body,
    function: u32,
    machine: &mut Machine<'_>,
) -> Result<Flow, AllocError>
    requires { machine.old.at < length body.now }
    ensures { IfOk result (λ flow. AreFunctions (module_of «module».now) functions.now
        → DoesIn (bodies_of functions.now) (module_of «module».now) body.now (flat.call function) (machine_of machine.old) flow machine.new) }
{
    let _length = body.len();
    machine.at += 1;
    let flow = call(alloc, module, functions, function, machine)?;
    Ok(flow)
}

// The function of an entry of the table; none where it is empty or outside.
fn entry_at(table: &[Option<u32>], index: u32) -> Option<u32>
    ensures { result ≡ found_entry (slice_get table.now index) }
{
    match table.get(index as usize) {
        None => None,
        Some(entry) => *entry,
    }
}

// `call_indirect`.
fn call_by_entry(
    alloc: Global,
    module: &Module<'_>,
    functions: &[Function],
    body: &Body,
    kind: u32,
    machine: &mut Machine<'_>,
) -> Result<Flow, AllocError>
    requires { machine.old.at < length body.now }
    ensures { IfOk result (λ flow. AreFunctions (module_of «module».now) functions.now
        → DoesIn (bodies_of functions.now) (module_of «module».now) body.now (flat.call_indirect kind) (machine_of machine.old) flow machine.new) }
{
    let _length = body.len();
    let Some(index) = machine.operands.pop32() else {
        return Ok(Flow::Stuck);
    };
    let Some(function) = entry_at(&machine.state.table, index) else {
        machine.ending = End::Trap(TrapKind::TableEntry);
        return Ok(Flow::Over);
    };
    if !has_type(module, functions, kind, function) {
        machine.ending = End::Trap(TrapKind::OtherType);
        return Ok(Flow::Over);
    }
    machine.at += 1;
    let flow = call(alloc, module, functions, function, machine)?;
    Ok(flow)
}

/// Does the instruction at the machine's place, whose reduction is paid, unless it is a constant.
pub fn step(
    alloc: Global,
    module: &Module<'_>,
    functions: &[Function],
    body: &Body,
    machine: &mut Machine<'_>,
) -> Result<Flow, AllocError>
    requires { HaveForms body.now }
    ensures { IfOk result (λ flow. (i : Instruction) →
        AreFunctions (module_of «module».now) functions.now
        → is_free i ≡ false
        → DoesIn (bodies_of functions.now) (module_of «module».now) body.now i (machine_of machine.old) flow machine.new) }
{
    let at = machine.at;
    if at >= body.len() {
        return Ok(Flow::Stuck);
    }
    let Some(instr) = body.get(at) else {
        return Ok(Flow::Stuck);
    };
    match kind_of(instr) {
        Kind::Constant => Ok(Flow::Stuck),
        Kind::Plain => Ok(plain(machine, body, instr)?),
        Kind::Unreachable => {
            machine.ending = End::Trap(TrapKind::Unreachable);
            Ok(Flow::Over)
        }
        Kind::Block(kind) => Ok(open_block(machine, body, kind)?),
        Kind::Loop(kind) => Ok(open_loop(machine, body, kind)?),
        Kind::If(kind) => Ok(open_if(machine, body, kind)?),
        Kind::Else => Ok(end_arm(machine, body)),
        Kind::End => Ok(end(machine, body)),
        Kind::Br(label) => Ok(branch_always(machine, body, label)),
        Kind::BrIf(label) => Ok(branch_if(machine, body, label)),
        Kind::BrTable(labels, default) => Ok(branch_by_table(machine, body, labels, default)),
        Kind::Return => Ok(leave(machine, body)),
        Kind::Call(function) => Ok(call_by_number(
            alloc, module, functions, body, function, machine,
        )?),
        Kind::CallIndirect(kind) => Ok(call_by_entry(
            alloc, module, functions, body, kind, machine,
        )?),
    }
}
