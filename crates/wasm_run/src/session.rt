// The start function and the script's calls, one after the other.

ghost use Rattle.std.specs.Prelude.{◌≡◌, ◌++◌, [], ℕ, map, reverse, IfOk, OnOk};
ghost use Rattle.session_lang.specs.Observation.{ObservationPlain};
ghost use Rattle.session_lang.specs.Views.{call_of, script_of};
ghost use Rattle.wasm_tree.specs.Views.{module_of};
ghost use Rattle.wasm_lang_exec.specs.Session as session;
ghost use Rattle.wasm_lang_exec.specs.Store.{Store};
ghost use Rattle.wasm_run_frames.specs.Views.{machine_of};
ghost use Rattle.wasm_run_machine.specs.Functions.{AllHaveForms, AreFunctions};
ghost use Rattle.wasm_run.specs.Exports.{callees_of};
ghost use Rattle.wasm_run.specs.Runs.{after_ran, begun, seen_as};

use crate::words::arguments_for;
use sem_words::{TrapKind, Word};
use session_lang::{CallLine, End, Event, Script};
use std::alloc::{AllocError, Global};
use wasm_run_frames::Machine;
use wasm_run_machine::{Function, Ran, call_host};
use wasm_run_operands::Operands;
use wasm_run_start::{bytes_fit, entries_fit, put_bytes, put_entries};
use wasm_tree::Module;

// Puts operands on top, in order.
fn push_all(operands: &mut Operands, words: &[Word]) -> Result<(), AllocError>
    ensures values { OnOk result (operands.new.values ≡ reverse words.now ++ operands.old.values) }
    ensures below { OnOk result (operands.new.below ≡ operands.old.below) }
{
    for word in words {
        operands.push(*word)?;
    }
    Ok(())
}

// The host calls: there are no locals and no labels, and these operands alone.
fn call_from_host(
    alloc: Global,
    machine: &mut Machine<'_>,
    arguments: &[Word],
) -> Result<(), AllocError>
    ensures { OnOk result (machine_of machine.new ≡ record (machine_of machine.old) { values = reverse arguments.now; below = []; locals = []; enclosing = [] }) }
{
    machine.operands = Operands::new(alloc);
    machine.locals = Vec::new(alloc);
    machine.enclosing = Vec::new(alloc);
    push_all(&mut machine.operands, arguments)?;
    Ok(())
}

// A call of the script has come back.
fn note_result(machine: &mut Machine<'_>) -> Result<(), AllocError>
    ensures { OnOk result ((machine_of machine.new).store ≡ session.with_event (session.result_event (machine_of machine.old).values) (machine_of machine.old).store) }
{
    let event = match machine.operands.pop() {
        None => Event::Returned,
        Some(word) => Event::Result(word),
    };
    match machine.events.push(event) {
        Ok(()) => Ok(()),
        Err(_) => Err(AllocError),
    }
}

// One call of the script, of the function that it names.
fn run_one(
    alloc: Global,
    module: &Module<'_>,
    functions: &[Function],
    callee: Option<u32>,
    call: &CallLine,
    machine: &mut Machine<'_>,
    steps: u64,
) -> Result<Ran, AllocError>
    requires forms { AllHaveForms functions.now }
    requires callee { callee ≡ session.function_named (module_of «module».now).exports (call_of call.now).name }
    ensures { IfOk result (λ ran. (next : ℕ → Store → ObservationPlain) → AreFunctions (module_of «module».now) functions.now
        → session.one_call (module_of «module».now) (session.function_named (module_of «module».now).exports (call_of call.now).name) (call_of call.now).args steps (machine_of machine.old).store next
        ≡ after_ran ran (machine_of machine.new).store next) }
{
    let Some(function) = callee else {
        return Ok(Ran::Spent);
    };
    let arguments = arguments_for(alloc, module, functions, function, call.args.as_slice())?;
    call_from_host(alloc, machine, arguments.as_slice())?;
    match call_host(alloc, module, functions, function, machine, steps)? {
        Ran::Back(left) => {
            note_result(machine)?;
            Ok(Ran::Back(left))
        }
        Ran::Over(end) => Ok(Ran::Over(end)),
        Ran::Spent => Ok(Ran::Spent),
    }
}

// The script's calls, of the functions that they name. Some end, or None where the reductions are used up or there is no next one.
fn run_calls(
    alloc: Global,
    module: &Module<'_>,
    functions: &[Function],
    callees: &[Option<u32>],
    calls: &[CallLine],
    machine: &mut Machine<'_>,
    steps: u64,
) -> Result<Option<End>, AllocError>
    requires forms { AllHaveForms functions.now }
    requires callees { callees.now ≡ callees_of (module_of «module».now) (map call_of calls.now) }
    ensures { IfOk result (λ end. AreFunctions (module_of «module».now) functions.now
        → session.calls_seen (module_of «module».now) (map call_of calls.now) steps (machine_of machine.old).store ≡ seen_as end (machine_of machine.new).store) }
{
    let mut left = steps;
    for (i, call) in calls.iter().enumerate() {
        match run_one(alloc, module, functions, callees[i], call, machine, left)? {
            Ran::Back(more) => left = more,
            Ran::Over(end) => return Ok(Some(end)),
            Ran::Spent => return Ok(None),
        }
    }
    Ok(Some(End::Done))
}

// The start function, where there is one.
fn run_start(
    alloc: Global,
    module: &Module<'_>,
    functions: &[Function],
    machine: &mut Machine<'_>,
    steps: u64,
) -> Result<Ran, AllocError>
    requires { AllHaveForms functions.now }
    ensures { IfOk result (λ ran. (next : ℕ → Store → ObservationPlain) → AreFunctions (module_of «module».now) functions.now
        → session.started (module_of «module».now) (module_of «module».now).start steps (machine_of machine.old).store next ≡ after_ran ran (machine_of machine.new).store next) }
{
    let Some(function) = module.start else {
        return Ok(Ran::Back(steps));
    };
    call_from_host(alloc, machine, &[])?;
    let ran = call_host(alloc, module, functions, function, machine, steps)?;
    Ok(ran)
}

// The start function, and then the script's calls.
fn run_started(
    alloc: Global,
    module: &Module<'_>,
    functions: &[Function],
    callees: &[Option<u32>],
    calls: &[CallLine],
    machine: &mut Machine<'_>,
    steps: u64,
) -> Result<Option<End>, AllocError>
    requires forms { AllHaveForms functions.now }
    requires callees { callees.now ≡ callees_of (module_of «module».now) (map call_of calls.now) }
    ensures { IfOk result (λ end. AreFunctions (module_of «module».now) functions.now
        → session.started (module_of «module».now) (module_of «module».now).start steps (machine_of machine.old).store (session.calls_seen (module_of «module».now) (map call_of calls.now))
        ≡ seen_as end (machine_of machine.new).store) }
{
    match run_start(alloc, module, functions, machine, steps)? {
        Ran::Back(left) => {
            let end = run_calls(alloc, module, functions, callees, calls, machine, left)?;
            Ok(end)
        }
        Ran::Over(end) => Ok(Some(end)),
        Ran::Spent => Ok(None),
    }
}

/// A session from its first store on: instantiation, the start function and the script's calls, of the functions that they name. Some
/// end, or None where the reductions are used up or there is no next one.
pub fn run_session(
    alloc: Global,
    module: &Module<'_>,
    functions: &[Function],
    callees: &[Option<u32>],
    script: &Script,
    machine: &mut Machine<'_>,
    steps: u64,
) -> Result<Option<End>, AllocError>
    requires forms { AllHaveForms functions.now }
    requires callees { callees.now ≡ callees_of (module_of «module».now) (script_of script.now).calls }
    ensures { IfOk result (λ end. AreFunctions (module_of «module».now) functions.now
        → begun (module_of «module».now) (script_of script.now) steps (machine_of machine.old).store ≡ seen_as end (machine_of machine.new).store) }
{
    if steps == 0 {
        return Ok(None);
    }
    let elements = module.elements.as_slice();
    let segments = module.segments.as_slice();
    if !entries_fit(&machine.state, elements) || !bytes_fit(&machine.state, segments) {
        return Ok(Some(End::Trap(TrapKind::Segment)));
    }
    put_entries(&mut machine.state, elements);
    put_bytes(&mut machine.state, segments);
    let calls = script.calls.as_slice();
    let end = run_started(alloc, module, functions, callees, calls, machine, steps - 1)?;
    Ok(end)
}
