//! Blocks and functions that are entered.
ghost use Rattle.std.specs.Prelude.{◌≡◌, [], ◌∷◌, ◌++◌, length, replicate, OnOk};
ghost use Rattle.wasm_tree.specs.Views.{locals_in};
ghost use Rattle.wasm_lang_exec.specs.Store.{word_of_type, zeros_of};
ghost use Rattle.wasm_laws_machine.specs.Machine.{of_frame, of_label};
ghost use Rattle.wasm_run_frames.specs.Views.{machine_of};

use crate::machine::{Enclosing, Frame, Label, Machine};
use sem_words::Word;
use std::alloc::AllocError;
use std::mem;
use wasm_lang::ValType;
use wasm_run_flat::Target;
use wasm_tree::Run;

/// A block is entered, whose label has this target and arity; its code begins at `at`.
pub fn enter_block(
    machine: &mut Machine<'_>,
    target: Target,
    arity: usize,
    at: usize,
) -> Result<(), AllocError>
    ensures { OnOk result (let old = machine_of machine.old in machine_of machine.new ≡ record old {
      values = [];
      below = old.values ++ old.below;
      at = at;
      enclosing = of_label (record { target = target; arity = arity; floor = length old.below }) ∷ old.enclosing;
    }) }
{
    let floor = machine.operands.floor();
    let label = Label {
        target,
        arity,
        floor,
    };
    if machine.enclosing.push(Enclosing::Label(label)).is_err() {
        return Err(AllocError);
    }
    machine.operands.enter();
    machine.at = at;
    Ok(())
}

// The word of a type that stands for 0.
fn zero_of(kind: ValType) -> Word
    ensures { result ≡ word_of_type kind 0 }
{
    match kind {
        ValType::I32 => Word::W32(0),
        ValType::I64 => Word::W64(0),
    }
}

// The word that stands for 0 for each local of a run, after other words.
fn add_run(locals: &mut Vec<Word>, run: Run) -> Result<(), AllocError>
    ensures { OnOk result (locals.new.items ≡ locals.old.items ++ replicate run.count (word_of_type run.kind 0)) }
{
    let zero = zero_of(run.kind);
    for _k in 0..run.count {
        locals.push(zero)?;
    }
    Ok(())
}

// The word that stands for 0 for each local, after other words.
fn add_zeros(locals: &mut Vec<Word>, more: &[Run]) -> Result<(), AllocError>
    ensures { OnOk result (locals.new.items ≡ locals.old.items ++ zeros_of (locals_in more.now)) }
{
    for run in more {
        add_run(locals, *run)?;
    }
    Ok(())
}

/// A function is entered with its arguments and with zeros for its further locals. It has so many results.
pub fn enter_function(
    machine: &mut Machine<'_>,
    function: usize,
    arguments: Vec<Word>,
    more: &[Run],
    arity: usize,
) -> Result<(), AllocError>
    ensures { OnOk result (let old = machine_of machine.old in machine_of machine.new ≡ record old {
      values = [];
      below = old.values ++ old.below;
      locals = arguments.items ++ zeros_of (locals_in more.now);
      function = function;
      at = 0;
      enclosing = of_frame (record { function = old.function; at = old.at; locals = old.locals; arity = arity; floor = length old.below }) ∷ old.enclosing;
    }) }
{
    let mut locals = arguments;
    add_zeros(&mut locals, more)?;
    let frame = Frame {
        function: machine.function,
        at: machine.at,
        locals: mem::replace(&mut machine.locals, locals),
        arity,
        floor: machine.operands.floor(),
    };
    if machine.enclosing.push(Enclosing::Frame(frame)).is_err() {
        return Err(AllocError);
    }
    machine.operands.enter();
    machine.function = function;
    machine.at = 0;
    Ok(())
}
