//! Commands that run a script.
ghost use Rattle.std.specs.Prelude.{◌≡◌, ◌≤◌, ℕ, Bool, List, IfOk, IfErr, string_bytes};
ghost use Rattle.bridge_io.specs.Outside.{Rose, RoseBy};
ghost use Rattle.bridge_lang.specs.Command as spec;
ghost use Rattle.bridge_args.specs.Answer.{running_view};
ghost use Rattle.bridge_lang.specs.Job.{IsModuleJob, written};
ghost use Rattle.bridge_lang.specs.Answers.{MayAnswer};
ghost use Rattle.bridge_lang.specs.Reason.{read_fault, missing, too_large};
ghost use Rattle.bridge_cmd.specs.Refused.{reason_of};

use crate::refusal::{Refusal, of_gathering};
use crate::runner::{played, runner_for};
use bridge_args::Running;
use bridge_io::{Files, gather};
use shared_bytes::SharedBytes;
use std::alloc::Global;
use std::mem;

/// The largest file that is read, in bytes.
pub(crate) const FILE_LIMIT: u64 = 16_777_216;

/// The run of a script's file on the module that the bytes are.
pub(crate) fn script_run<F: Files>(
    alloc: Global,
    running: Running,
    bytes: &[u8],
    script: String,
    steps: u32,
    files: &mut F,
) -> Result<SharedBytes, Refusal>
    ensures told { F.told files.new ≡ F.told files.old }
    ensures faults { F.faults files.old ≤ F.faults files.new }
    ensures absences { F.absences files.old ≤ F.absences files.new }
    ensures given { F.given files.old ≤ F.given files.new }
    ensures written { IfOk result (λ output. IsModuleJob (F.told files.old) (spec.run (running_view running) (string_bytes script) steps) bytes.now (written output)) }
    ensures refused { IfErr result (λ refusal. MayAnswer (IsModuleJob (F.told files.old) (spec.run (running_view running) (string_bytes script) steps) bytes.now) (reason_of refusal)) }
    ensures read_fault { IfErr result (λ refusal. reason_of refusal ≡ read_fault → Rose (F.faults files.old) (F.faults files.new)) }
    ensures missing { IfErr result (λ refusal. (is_script : Bool) (file : List ℕ) → reason_of refusal ≡ missing is_script file → Rose (F.absences files.old) (F.absences files.new)) }
    ensures too_large { IfErr result (λ refusal. (is_script : Bool) (file : List ℕ) → reason_of refusal ≡ too_large is_script file → RoseBy 16777217 (F.given files.old) (F.given files.new)) }
{
    let runner = match runner_for(alloc, running, bytes) {
        Ok(runner) => runner,
        Err(refusal) => return Err(refusal),
    };
    match gather(alloc, files, script.as_str(), FILE_LIMIT) {
        Ok(text) => {
            let output = played(alloc, &runner, text.as_slice(), steps);
            // The command ends soon, and the system takes the memory back faster than piece by piece.
            mem::forget(runner);
            output
        }
        Err(fault) => Err(of_gathering(fault, true, script)),
    }
}
