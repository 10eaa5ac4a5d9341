//! Blocks, loops, ifs and ends.
ghost use Rattle.std.specs.Prelude.{◌≡◌, ◌<◌, ◌+◌, length, IfOk, ℕ, List};
ghost use Rattle.wasm_run_flat.specs.Jumps.{other_arm};
ghost use Rattle.wasm_lang.specs.Instructions as plain;
ghost use Rattle.wasm_lang.specs.Instructions.{Instruction};
ghost use Rattle.wasm_lang.specs.Modules.{WasmModule};
ghost use Rattle.wasm_lang_exec.specs.Reductions as meaning;
ghost use Rattle.wasm_run_frames.specs.Views.{machine_of};
ghost use Rattle.wasm_run_machine.specs.Doing.{DoesIn};

use std::alloc::AllocError;
use wasm_lang::ValType;
use wasm_run_flat::{Body, Target};
use wasm_run_frames::{Flow, Machine, end_block, enter_block};

// How many operands a block of this type leaves.
fn arity_of(kind: Option<ValType>) -> usize
    ensures { result ≡ meaning.arity_of kind }
{
    match kind {
        None => 0,
        Some(_) => 1,
    }
}

/// `block`.
pub fn open_block(
    machine: &mut Machine<'_>,
    body: &Body,
    kind: Option<ValType>,
) -> Result<Flow, AllocError>
    requires { machine.old.at < length body.now }
    ensures { IfOk result (λ flow. (bodies : ℕ → List Instruction) (m : WasmModule) →
        DoesIn bodies m body.now (plain.block kind) (machine_of machine.old) flow machine.new) }
{
    let _length = body.len();
    let at = machine.at;
    let inside = at + 1;
    let target = Target::Past(body.past_end(at));
    enter_block(machine, target, arity_of(kind), inside)?;
    Ok(Flow::On)
}

/// `loop`. A branch to its label goes to the loop itself.
pub fn open_loop(
    machine: &mut Machine<'_>,
    body: &Body,
    kind: Option<ValType>,
) -> Result<Flow, AllocError>
    requires { machine.old.at < length body.now }
    ensures { IfOk result (λ flow. (bodies : ℕ → List Instruction) (m : WasmModule) →
        DoesIn bodies m body.now (plain.loop kind) (machine_of machine.old) flow machine.new) }
{
    let _length = body.len();
    let at = machine.at;
    let inside = at + 1;
    enter_block(machine, Target::Again(at), 0, inside)?;
    Ok(Flow::On)
}

// The place of the arm that an `if` at `at` goes to with this number.
fn arm_at(body: &Body, at: usize, condition: u32) -> usize
    requires { at < length body.now }
    ensures { result ≡ meaning.choose condition (at + 1) (other_arm body.now at) }
{
    let _length = body.len();
    if condition == 0 {
        body.other_arm(at)
    } else {
        at + 1
    }
}

/// `if`.
pub fn open_if(
    machine: &mut Machine<'_>,
    body: &Body,
    kind: Option<ValType>,
) -> Result<Flow, AllocError>
    requires { machine.old.at < length body.now }
    ensures { IfOk result (λ flow. (bodies : ℕ → List Instruction) (m : WasmModule) →
        DoesIn bodies m body.now (plain.if_block kind) (machine_of machine.old) flow machine.new) }
{
    let at = machine.at;
    let Some(condition) = machine.operands.pop32() else {
        return Ok(Flow::Stuck);
    };
    let target = Target::Past(body.past_end(at));
    let inside = arm_at(body, at, condition);
    enter_block(machine, target, arity_of(kind), inside)?;
    Ok(Flow::On)
}

/// `end`, of a block or of the body.
pub fn end(machine: &mut Machine<'_>, body: &Body) -> Flow
    requires { machine.old.at < length body.now }
    ensures { (bodies : ℕ → List Instruction) (m : WasmModule) →
        DoesIn bodies m body.now plain.end_mark (machine_of machine.old) result machine.new }
{
    let _length = body.len();
    let place = machine.at + 1;
    end_block(machine, place)
}

/// `else`, where the first arm of an `if` ends.
pub fn end_arm(machine: &mut Machine<'_>, body: &Body) -> Flow
    requires { machine.old.at < length body.now }
    ensures { (bodies : ℕ → List Instruction) (m : WasmModule) →
        DoesIn bodies m body.now plain.else_mark (machine_of machine.old) result machine.new }
{
    let place = body.past_end(machine.at);
    end_block(machine, place)
}
