//! Calls of the script.
ghost use Rattle.std.specs.Prelude.{◌≡◌, IfOk, map, slice_get};
ghost use Rattle.sem_words.specs.Words.{word_of};
ghost use Rattle.session_lang.specs.Views.{call_of, end_of, event_of};
ghost use Rattle.asm_tree.specs.Views.{function_view, module_view};
ghost use Rattle.asm_run_code.specs.Modules.{codes_of};
ghost use Rattle.asm_run_code.specs.Sessions as session;
ghost use Rattle.asm_run_code.specs.Sessions.{key_number};
ghost use Rattle.asm_run_steps.specs.Linked.{codes_in};
ghost use Rattle.asm_run_steps.specs.States.{state_of};
ghost use Rattle.asm_run_state.specs.Session.{Calls, function_seen};

use crate::results::has_result;
use asm_run_steps::{Ended, Linked, Machine};
use asm_tree::{Function, Module};
use sem_words::Word;
use session_lang::{CallLine, Event};
use std::alloc::{AllocError, Global};

/// What a call of the script comes to: the session goes on, it is over, it stops where a unit is due and none is left, or it goes wrong.
#[derive(Clone, Copy)]
pub enum Hosted {
    Goes,
    Ends,
    Stops,
    Wrong,
}

/// A call of the script, of the function with the number that it names.
pub fn host_call(
    alloc: Global,
    module: &Module,
    linked: Linked<'_>,
    callee: Option<u32>,
    machine: &mut Machine<'_>,
    call: &CallLine,
) -> Result<Hosted, AllocError>
    requires codes { codes_in linked ≡ codes_of (module_view «module».now) }
    requires callee { callee ≡ key_number (module_view «module».now) (call_of call.now).name }
    ensures { IfOk result (λ h. Calls (module_view «module».now) (call_of call.now) (state_of machine.old) h (end_of machine.new.world.ending) (state_of machine.new)) }
{
    let Some(number) = callee else {
        return Ok(Hosted::Wrong);
    };
    let Some(function) = function_at(module, number) else {
        return Ok(Hosted::Wrong);
    };
    let arguments = words_of(alloc, call.args.as_slice())?;
    match machine.call(alloc, linked, number, arguments.as_slice())? {
        Ended::Back(word) => {
            machine.world.add_event(result_event(function, word))?;
            Ok(Hosted::Goes)
        }
        Ended::Halted => Ok(Hosted::Ends),
        Ended::Unpaid => Ok(Hosted::Stops),
        Ended::Lost => Ok(Hosted::Wrong),
    }
}

// The function of a number, if there is one.
fn function_at(module: &Module, number: u32) -> Option<&Function>
    ensures { function_seen result ≡ slice_get (module_view «module».now).functions number }
{
    module.functions.get(number as usize)
}

// The event of a call of the function that comes back with a word.
fn result_event(function: &Function, word: u32) -> Event
    ensures { event_of result ≡ session.event_of (function_view function.now) word }
{
    if has_result(function) {
        Event::Result(Word::W32(word))
    } else {
        Event::Returned
    }
}

// The words of the arguments of the script.
fn words_of(alloc: Global, args: &[i128]) -> Result<Vec<u32>, AllocError>
    ensures { IfOk result (λ words. words.items ≡ map (word_of 32) args.now) }
{
    let mut words = Vec::with_capacity(alloc, args.len())?;
    for arg in args {
        words.push(low_word(*arg))?;
    }
    Ok(words)
}

// A whole number modulo 2^32.
fn low_word(z: i128) -> u32
    ensures { result ≡ word_of 32 z }
{
    z.rem_euclid(1 << 32) as u32
}
