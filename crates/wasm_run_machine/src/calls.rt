//! Calls.
ghost use Rattle.std.specs.Prelude.{◌≡◌, ℕ, ◌++◌, IfOk, OnOk, map, slice_get};
ghost use Rattle.sem_words.specs.Lists.{text_bytes};
ghost use Rattle.session_lang.specs.Views.{write_of};
ghost use Rattle.session_replies.specs.Answers.{events_of};
ghost use Rattle.wasm_lang.specs.Modules.{WasmModule};
ghost use Rattle.wasm_tree.specs.Views.{module_of};
ghost use Rattle.wasm_lang_exec.specs.Store.{written};
ghost use Rattle.wasm_lang_exec.specs.Reductions.{callee_at, of_type, result_word};
ghost use Rattle.wasm_laws_drive.specs.Drive.{Outcome};
ghost use Rattle.wasm_laws_machine.specs.Meaning.{Calls};
ghost use Rattle.wasm_run_frames.specs.Views.{machine_of};
ghost use Rattle.wasm_run_frames.specs.Flows.{Comes};
ghost use Rattle.wasm_run_machine.specs.Functions.{AreFunctions, bodies_of};
ghost use Rattle.wasm_run_machine.specs.Asking.{Asks, Bodies};

use crate::functions::{Callee, Function, function_at};
use crate::types::is_same_type;
use sem_words::{List, Text, TrapKind, Word};
use session_lang::End;
use session_replies::{Answer, Given, put_writes};
use std::alloc::{AllocError, Global};
use wasm_lang::ValType;
use wasm_run_frames::{Flow, Machine, enter_function};
use wasm_tree::Module;

// The result of an import, of which the caller takes as many low bits as its type has.
fn push_result(machine: &mut Machine<'_>, results: &[ValType], word: u64) -> Result<(), AllocError>
    ensures values { OnOk result ((machine_of machine.new).values ≡ result_word results.now word ++ (machine_of machine.old).values) }
    ensures others { machine_of machine.new ≡ record (machine_of machine.old) { values = (machine_of machine.new).values } }
{
    match results.first() {
        None => Ok(()),
        Some(ValType::I32) => {
            let low = (word & 0xffff_ffff) as u32;
            machine.operands.push(Word::W32(low))
        }
        Some(ValType::I64) => machine.operands.push(Word::W64(word)),
    }
}

// What an import gave: the byte writes, then the event.
fn take_given(machine: &mut Machine<'_>, given: Given<'_>) -> Result<(), AllocError>
    ensures { OnOk result (let old = machine_of machine.old in machine_of machine.new ≡ record old {
      store = record old.store {
        memory = written (map write_of given.entry.writes.now) old.store.memory;
        events = old.store.events ++ events_of given.entry.event;
      };
    }) }
{
    put_writes(&mut machine.state.memory, given.writes);
    match given.event {
        None => Ok(()),
        Some(event) => match machine.events.push(event) {
            Ok(()) => Ok(()),
            Err(_) => Err(AllocError),
        },
    }
}

// An import is called with its arguments, which the machine has given away.
fn ask(
    alloc: Global,
    name: &Text,
    results: &[ValType],
    arguments: Vec<Word>,
    machine: &mut Machine<'_>,
) -> Result<Flow, AllocError>
    ensures { IfOk result (λ flow. (bodies : Bodies) (m : WasmModule) (n : ℕ) (r : Outcome) →
        Asks bodies m (machine_of machine.old) (text_bytes name.now) arguments.items results.now n r
        → Comes bodies m flow machine.new n r) }
{
    match machine
        .replies
        .answer(alloc, name.as_bytes(), List::from_vec(arguments))?
    {
        Answer::Ends(end) => {
            machine.ending = end;
            Ok(Flow::Over)
        }
        Answer::Goes(given) => {
            let word = given.word;
            take_given(machine, given)?;
            push_result(machine, results, word)?;
            Ok(Flow::On)
        }
    }
}

/// Calls a function by its number. The machine stands at the place after the call.
pub fn call(
    alloc: Global,
    module: &Module<'_>,
    functions: &[Function],
    function: u32,
    machine: &mut Machine<'_>,
) -> Result<Flow, AllocError>
    ensures { IfOk result (λ flow. (n : ℕ) (r : Outcome) →
        AreFunctions (module_of «module».now) functions.now
        → Calls (bodies_of functions.now) (module_of «module».now) (machine_of machine.old) (callee_at (module_of «module».now) function) n r
        → Comes (bodies_of functions.now) (module_of «module».now) flow machine.new n r) }
{
    let place = function as usize;
    let Some(function) = function_at(functions, place) else {
        return Ok(Flow::Stuck);
    };
    let Some(kind) = module.types.get(function.kind as usize) else {
        return Ok(Flow::Stuck);
    };
    let Some(arguments) = machine.operands.split_top(kind.params.len())? else {
        return Ok(Flow::Stuck);
    };
    match &function.callee {
        Callee::Import(name) => {
            let flow = ask(alloc, name, kind.results.as_slice(), arguments, machine)?;
            Ok(flow)
        }
        Callee::Own(_, entry) => {
            let Some(body) = module.bodies.get(*entry) else {
                return Ok(Flow::Stuck);
            };
            let arity = kind.results.len();
            enter_function(machine, place, arguments, body.locals.as_slice(), arity)?;
            Ok(Flow::On)
        }
    }
}

/// Whether a function has a type, by their numbers.
pub fn has_type(module: &Module<'_>, functions: &[Function], kind: u32, function: u32) -> bool
    ensures { AreFunctions (module_of «module».now) functions.now
        → result ≡ of_type (slice_get (module_of «module».now).types kind) (callee_at (module_of «module».now) function) }
{
    let Some(function) = function_at(functions, function as usize) else {
        return false;
    };
    let Some(expected) = module.types.get(kind as usize) else {
        return false;
    };
    let Some(actual) = module.types.get(function.kind as usize) else {
        return false;
    };
    is_same_type(expected, actual)
}
