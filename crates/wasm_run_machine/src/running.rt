//! A run of a machine.
ghost use Rattle.std.specs.Prelude.{◌≡◌, ℕ, List, [], IfOk, reverse, MatchOption};
ghost use Rattle.wasm_lang.specs.Instructions.{Instruction};
ghost use Rattle.wasm_lang.specs.Modules.{WasmModule};
ghost use Rattle.wasm_tree.specs.Views.{module_of};
ghost use Rattle.wasm_lang_exec.specs.Session.{run_call};
ghost use Rattle.wasm_laws_drive.specs.Drive.{Outcome};
ghost use Rattle.wasm_laws_machine.specs.Meaning.{Shows};
ghost use Rattle.wasm_run_frames.specs.Views.{machine_of};
ghost use Rattle.wasm_run_frames.specs.Flows.{Comes};
ghost use Rattle.wasm_run_machine.specs.Functions.{AllHaveForms, AreFunctions, bodies_of};
ghost use Rattle.wasm_run_machine.specs.Runs.{CameTo, RanAs};

use crate::steps::step;
use crate::{Callee, Function, call, function_at, push_constants};
use session_lang::End;
use std::alloc::{AllocError, Global};
use std::mem;
use wasm_run_flat::Body;
use wasm_run_frames::{Flow, Machine};
use wasm_tree::Module;

/// What some reductions of a host's call come to: it is back with so many of them left; the session is over; or they are used up, or
/// there is no next one.
#[derive(Drop)]
pub enum Ran {
    Back(u64),
    Over(End),
    Spent,
}

// The body of a function of the module.
fn body_at(functions: &[Function], function: usize) -> Option<&Body>
    ensures { MatchOption result (bodies_of functions.now function ≡ []) (λ body. bodies_of functions.now function ≡ body.now) }
{
    match function_at(functions, function) {
        None => None,
        Some(function) => match &function.callee {
            Callee::Import(_) => None,
            Callee::Own(body, _) => Some(body),
        },
    }
}

// The session is over, as the machine's ending says.
fn over(machine: &mut Machine<'_>) -> Ran
    ensures { (bodies : ℕ → List Instruction) (m : WasmModule) (n : ℕ) (r : Outcome) →
        Comes bodies m Flow.Over machine.old n r → CameTo result (machine_of machine.new) r }
{
    Ran::Over(mem::replace(&mut machine.ending, End::Done))
}

/// Runs a machine for so many reductions.
pub fn run(
    alloc: Global,
    module: &Module<'_>,
    functions: &[Function],
    machine: &mut Machine<'_>,
    steps: u64,
) -> Result<Ran, AllocError>
    requires { AllHaveForms functions.now }
    ensures { IfOk result (λ ran. (r : Outcome) → AreFunctions (module_of «module».now) functions.now
        → Shows (bodies_of functions.now) (module_of «module».now) (machine_of machine.old) steps r
        → CameTo ran (machine_of machine.new) r) }
{
    let mut left = steps;
    'steps: loop {
        if machine.enclosing.is_empty() {
            return Ok(Ran::Back(left));
        }
        let Some(body) = body_at(functions, machine.function) else {
            return Ok(Ran::Spent);
        };
        push_constants(machine, body)?;
        if left == 0 {
            return Ok(Ran::Spent);
        }
        left -= 1;
        match step(alloc, module, functions, body, machine)? {
            Flow::On => {}
            Flow::Over => return Ok(over(machine)),
            Flow::Stuck => return Ok(Ran::Spent),
        }
    }
}

/// Runs a call of the host for so many reductions. The machine is back at the host, and has the arguments as its operands.
pub fn call_host(
    alloc: Global,
    module: &Module<'_>,
    functions: &[Function],
    function: u32,
    machine: &mut Machine<'_>,
    steps: u64,
) -> Result<Ran, AllocError>
    requires forms { AllHaveForms functions.now }
    ensures { IfOk result (λ ran. AreFunctions (module_of «module».now) functions.now
        → (machine_of machine.old).enclosing ≡ [] → (machine_of machine.old).locals ≡ []
        → RanAs ran (machine_of machine.new) (run_call (module_of «module».now) steps function (reverse (machine_of machine.old).values) (machine_of machine.old).store)) }
{
    if steps == 0 {
        return Ok(Ran::Spent);
    }
    match call(alloc, module, functions, function, machine)? {
        Flow::On => {
            let ran = run(alloc, module, functions, machine, steps - 1)?;
            Ok(ran)
        }
        Flow::Over => Ok(over(machine)),
        Flow::Stuck => Ok(Ran::Spent),
    }
}
