//! Modules that are run.
ghost use Rattle.std.specs.Prelude.{◌≡◌, ℕ, List, None, IfOk, IfErr};
ghost use Rattle.asm_tree.specs.Views.{module_view};
ghost use Rattle.wasm_lang_valid.specs.Runnable.{not_runnable};
ghost use Rattle.bridge_lang.specs.Command as spec;
ghost use Rattle.bridge_args.specs.Answer.{running_view};
ghost use Rattle.bridge_lang.specs.Runs.{IsRunner, text_runner, binary_runner};
ghost use Rattle.bridge_cmd.specs.Runners.{runner_of};
ghost use Rattle.bridge_lang.specs.Job.{IsPlayed, written};
ghost use Rattle.bridge_lang.specs.Answers.{IsAnswered, IsScriptAnswer};
ghost use Rattle.bridge_cmd.specs.Refused.{reason_of};

use crate::refusal::{Refusal, of_run, of_script, of_text};
use asm_validate::Checked;
use bridge_args::{HeapLength, Running};
use cmd_check_asm::check_text;
use cmd_run_wasm::runnable_module;
use shared_bytes::SharedBytes;
use std::alloc::Global;
use wasm_validate::Valid;

/// A module that is run; one of asm.js with the length of its heap.
#[derive(Drop)]
pub(crate) enum Runner<'a> {
    Text(Checked, HeapLength),
    Binary(Valid<'a>),
}

/// The module that the bytes are, where it is run.
pub(crate) fn runner_for<'a>(
    alloc: Global,
    running: Running,
    bytes: &'a [u8],
) -> Result<Runner<'a>, Refusal>
    ensures runs { IfOk result (λ runner. IsRunner bytes.now (running_view running) (runner_of runner)) }
    ensures barred { (script : List ℕ) (steps : ℕ) → IfErr result (λ refusal. IsAnswered (spec.run (running_view running) script steps) bytes.now (reason_of refusal)) }
{
    match running {
        Running::Text(heap) => match check_text(alloc, bytes) {
            Ok(checked) => Ok(Runner::Text(checked, heap)),
            Err(fault) => Err(of_text(fault)),
        },
        Running::Binary => match runnable_module(alloc, bytes) {
            Ok(valid) => Ok(Runner::Binary(valid)),
            Err(fault) => Err(of_run(fault)),
        },
    }
}

fn text_played(
    alloc: Global,
    checked: &Checked,
    heap: HeapLength,
    script: &[u8],
    steps: u32,
) -> Result<SharedBytes, Refusal>
    ensures ran { IfOk result (λ output. IsPlayed (text_runner (module_view checked.now) heap.bytes) steps script.now (written output)) }
    ensures refused { IfErr result (λ refusal. IsScriptAnswer (text_runner (module_view checked.now) heap.bytes) steps script.now (reason_of refusal)) }
{
    match cmd_run_asm::run_script(alloc, checked, heap.bytes, script, steps) {
        Ok(output) => Ok(SharedBytes::from_vec(alloc, output)),
        Err(fault) => Err(of_script(fault)),
    }
}

fn binary_played(
    alloc: Global,
    valid: &Valid<'_>,
    script: &[u8],
    steps: u32,
) -> Result<SharedBytes, Refusal>
    requires runs { not_runnable valid.now ≡ None }
    ensures ran { IfOk result (λ output. IsPlayed (binary_runner valid.now) steps script.now (written output)) }
    ensures refused { IfErr result (λ refusal. IsScriptAnswer (binary_runner valid.now) steps script.now (reason_of refusal)) }
{
    match cmd_run_wasm::run_script(alloc, valid, script, steps) {
        Ok(output) => Ok(SharedBytes::from_vec(alloc, output)),
        Err(fault) => Err(of_script(fault)),
    }
}

/// What is printed of the script's run on a module.
pub(crate) fn played(
    alloc: Global,
    runner: &Runner<'_>,
    script: &[u8],
    steps: u32,
) -> Result<SharedBytes, Refusal>
    requires { (bytes : List ℕ) × (running : spec.Running) × IsRunner bytes running (runner_of runner.now) }
    ensures ran { IfOk result (λ output. IsPlayed (runner_of runner.now) steps script.now (written output)) }
    ensures refused { IfErr result (λ refusal. IsScriptAnswer (runner_of runner.now) steps script.now (reason_of refusal)) }
{
    match runner {
        Runner::Text(checked, heap) => text_played(alloc, checked, *heap, script, steps),
        Runner::Binary(valid) => binary_played(alloc, valid, script, steps),
    }
}
