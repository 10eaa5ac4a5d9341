//! From the words to the output.
ghost use Rattle.std.specs.Prelude.{◌≡◌, ◌≤◌, ◌⊎◌, IfOk, IfErr, None, Bool, false, map, string_bytes, length, ℕ, List};
ghost use Rattle.bridge_io.specs.Outside.{Rose, RoseBy};
ghost use Rattle.bridge_args.specs.Answer.{action_view};
ghost use Rattle.bridge_lang.specs.Words.{asked};
ghost use Rattle.bridge_lang.specs.Job.{file_limit, IsFileJob, IsJob, IsModuleJob, written};
ghost use Rattle.bridge_lang.specs.Answers.{MayAnswer};
ghost use Rattle.bridge_lang.specs.Reason.{faulty_words, read_fault, missing, too_large, out_of_memory};
ghost use Rattle.bridge_cmd.specs.Refused.{reason_of};

use crate::generating::generated;
use crate::linking::linked;
use crate::making::{made, translated};
use crate::playing::{FILE_LIMIT, script_run};
use crate::refusal::{Refusal, of_gathering, of_words};
use bridge_args::{Action, Asked, read_words};
use bridge_io::{Files, gather};
use shared_bytes::SharedBytes;
use std::alloc::Global;

/// What is done with a module's bytes, and with the file of a script or a second module.
fn module_output<F: Files>(
    alloc: Global,
    action: Action,
    bytes: &[u8],
    files: &mut F,
) -> Result<SharedBytes, Refusal>
    requires { length bytes.now ≤ file_limit }
    ensures told { F.told files.new ≡ F.told files.old }
    ensures faults { F.faults files.old ≤ F.faults files.new }
    ensures absences { F.absences files.old ≤ F.absences files.new }
    ensures given { F.given files.old ≤ F.given files.new }
    ensures written { IfOk result (λ output. IsModuleJob (F.told files.old) (action_view action) bytes.now (written output)) }
    ensures refused { IfErr result (λ refusal. MayAnswer (IsModuleJob (F.told files.old) (action_view action) bytes.now) (reason_of refusal)) }
    ensures read_fault { IfErr result (λ refusal. reason_of refusal ≡ read_fault → Rose (F.faults files.old) (F.faults files.new)) }
    ensures missing { IfErr result (λ refusal. (is_script : Bool) (file : List ℕ) → reason_of refusal ≡ missing is_script file → Rose (F.absences files.old) (F.absences files.new)) }
    ensures too_large { IfErr result (λ refusal. (is_script : Bool) (file : List ℕ) → reason_of refusal ≡ too_large is_script file → RoseBy 16777217 (F.given files.old) (F.given files.new)) }
{
    match action {
        Action::Make(making) => made(alloc, making, bytes),
        Action::Translate(heap) => translated(alloc, bytes, heap),
        Action::Link(second) => linked(alloc, bytes, second, files),
        Action::Run {
            running,
            script,
            steps,
        } => script_run(alloc, running, bytes, script, steps, files),
    }
}

/// What a command makes of its module's file.
fn command_output<F: Files>(
    alloc: Global,
    action: Action,
    file: String,
    files: &mut F,
) -> Result<SharedBytes, Refusal>
    ensures told { F.told files.new ≡ F.told files.old }
    ensures faults { F.faults files.old ≤ F.faults files.new }
    ensures absences { F.absences files.old ≤ F.absences files.new }
    ensures given { F.given files.old ≤ F.given files.new }
    ensures written { IfOk result (λ output. IsFileJob (F.told files.old) false (string_bytes file) (IsModuleJob (F.told files.old) (action_view action)) (written output)) }
    ensures refused { IfErr result (λ refusal. MayAnswer (IsFileJob (F.told files.old) false (string_bytes file) (IsModuleJob (F.told files.old) (action_view action))) (reason_of refusal)) }
    ensures read_fault { IfErr result (λ refusal. reason_of refusal ≡ read_fault → Rose (F.faults files.old) (F.faults files.new)) }
    ensures missing { IfErr result (λ refusal. (is_script : Bool) (file : List ℕ) → reason_of refusal ≡ missing is_script file → Rose (F.absences files.old) (F.absences files.new)) }
    ensures too_large { IfErr result (λ refusal. (is_script : Bool) (file : List ℕ) → reason_of refusal ≡ too_large is_script file → RoseBy 16777217 (F.given files.old) (F.given files.new)) }
{
    match gather(alloc, files, file.as_str(), FILE_LIMIT) {
        Ok(bytes) => module_output(alloc, action, bytes.as_slice(), files),
        Err(fault) => Err(of_gathering(fault, false, file)),
    }
}

/// The output that the words and the files ask for, or why there is none.
pub(crate) fn output_of<F: Files>(
    alloc: Global,
    words: &[String],
    files: &mut F,
) -> Result<SharedBytes, Refusal>
    ensures told { F.told files.new ≡ F.told files.old }
    ensures faults { F.faults files.old ≤ F.faults files.new }
    ensures absences { F.absences files.old ≤ F.absences files.new }
    ensures given { F.given files.old ≤ F.given files.new }
    ensures written { IfOk result (λ output. IsJob (map string_bytes words.now) (F.told files.old) (written output)) }
    ensures refused { IfErr result (λ refusal. MayAnswer (IsJob (map string_bytes words.now) (F.told files.old)) (reason_of refusal)) }
    ensures faulty_words { asked (map string_bytes words.now) ≡ None → IfErr result (λ refusal. (reason_of refusal ≡ faulty_words) ⊎ (reason_of refusal ≡ out_of_memory)) }
    ensures read_fault { IfErr result (λ refusal. reason_of refusal ≡ read_fault → Rose (F.faults files.old) (F.faults files.new)) }
    ensures missing { IfErr result (λ refusal. (is_script : Bool) (file : List ℕ) → reason_of refusal ≡ missing is_script file → Rose (F.absences files.old) (F.absences files.new)) }
    ensures too_large { IfErr result (λ refusal. (is_script : Bool) (file : List ℕ) → reason_of refusal ≡ too_large is_script file → RoseBy 16777217 (F.given files.old) (F.given files.new)) }
{
    match read_words(alloc, words) {
        Ok(Asked::OnFile { action, file }) => command_output(alloc, action, file, files),
        Ok(Asked::Gen(count)) => match generated(alloc, count) {
            Ok(output) => Ok(SharedBytes::from_vec(alloc, output)),
            Err(_) => Err(Refusal::OutOfMemory),
        },
        Err(fault) => Err(of_words(fault)),
    }
}
