//! Plain instructions, and constants, which are no reductions.
ghost use Rattle.std.specs.Prelude.{◌≡◌, ◌<◌, true, false, length, IfOk, OnOk, ℕ, List, Some, slice_get};
ghost use Rattle.wasm_lang.specs.Instructions.{Instruction};
ghost use Rattle.wasm_lang.specs.Modules.{WasmModule};
ghost use Rattle.wasm_tree.specs.Views.{instr_of};
ghost use Rattle.wasm_laws_drive.specs.Drive.{Outcome};
ghost use Rattle.wasm_run_plain.specs.Forms.{IsForm};
ghost use Rattle.wasm_laws_machine.specs.Meaning.{Runs};
ghost use Rattle.wasm_run_frames.specs.Views.{machine_of};
ghost use Rattle.wasm_run_machine.specs.Kinds.{constant_in, is_free, is_paid_plain};
ghost use Rattle.wasm_run_machine.specs.Doing.{DoesIn};

use sem_words::Word;
use session_lang::End;
use std::alloc::AllocError;
use wasm_run_flat::Body;
use wasm_run_frames::{Flow, Machine};
use wasm_run_operands::Effect;
use wasm_run_plain::do_plain;
use wasm_tree::Instr;

// The word of a constant.
fn constant_of(instr: &Instr) -> Option<Word>
    ensures { result ≡ constant_in (instr_of instr.now) }
{
    match instr {
        Instr::Const32(word) => Some(Word::W32(*word)),
        Instr::Const64(word) => Some(Word::W64(*word)),
        _ => None,
    }
}

/// Pushes the constants that stand at the machine's place.
pub fn push_constants(machine: &mut Machine<'_>, body: &Body) -> Result<(), AllocError>
    ensures shown { IfOk result (λ _. (bodies : ℕ → List Instruction) (m : WasmModule) (n : ℕ) (r : Outcome) →
        bodies (machine_of machine.old).function ≡ body.now
        → Runs bodies m (machine_of machine.old) n r → Runs bodies m (machine_of machine.new) n r) }
    ensures function { machine.new.function ≡ machine.old.function }
    ensures none_left { OnOk result ((i : Instruction) → slice_get body.now machine.new.at ≡ Some i → is_free i ≡ false) }
{
    'constants: while machine.at < body.len() {
        let Some(instr) = body.get(machine.at) else {
            return Ok(());
        };
        let Some(word) = constant_of(instr) else {
            return Ok(());
        };
        machine.operands.push(word)?;
        machine.at += 1;
    }
    Ok(())
}

/// A plain instruction that is a reduction.
pub fn plain(machine: &mut Machine<'_>, body: &Body, instr: &Instr) -> Result<Flow, AllocError>
    requires form { IsForm (instr_of instr.now) }
    requires inside { machine.old.at < length body.now }
    requires paid { is_paid_plain (instr_of instr.now) ≡ true }
    ensures { IfOk result (λ flow. (bodies : ℕ → List Instruction) (m : WasmModule) →
        DoesIn bodies m body.now (instr_of instr.now) (machine_of machine.old) flow machine.new) }
{
    let _length = body.len();
    let next = machine.at + 1;
    let effect = do_plain(
        instr,
        &mut machine.operands,
        &mut machine.locals,
        &mut machine.state,
    )?;
    match effect {
        Effect::Goes => {
            machine.at = next;
            Ok(Flow::On)
        }
        Effect::Traps(kind) => {
            machine.ending = End::Trap(kind);
            Ok(Flow::Over)
        }
        Effect::Sticks => Ok(Flow::Stuck),
    }
}
