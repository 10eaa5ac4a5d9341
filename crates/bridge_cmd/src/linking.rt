//! Two modules that are linked into one.
ghost use Rattle.std.specs.Prelude.{◌≡◌, ◌≤◌, ℕ, Bool, List, IfOk, IfErr, length, string_bytes};
ghost use Rattle.bridge_io.specs.Outside.{Rose, RoseBy};
ghost use Rattle.bridge_lang.specs.Command as spec;
ghost use Rattle.bridge_lang.specs.Job.{file_limit, IsModuleJob, written};
ghost use Rattle.bridge_lang.specs.Answers.{MayAnswer};
ghost use Rattle.bridge_lang.specs.Reason.{read_fault, missing, too_large};
ghost use Rattle.bridge_cmd.specs.Refused.{reason_of};

use crate::playing::FILE_LIMIT;
use crate::refusal::{Refusal, of_check, of_gathering, of_join};
use bridge_io::{Files, gather};
use cmd_check_wasm::check_bytes;
use cmd_link::linked_file;
use shared_bytes::SharedBytes;
use std::alloc::Global;
use std::mem;

/// The module that the bytes are, linked with the one of a second file.
pub(crate) fn linked<F: Files>(
    alloc: Global,
    bytes: &[u8],
    second: String,
    files: &mut F,
) -> Result<SharedBytes, Refusal>
    requires { length bytes.now ≤ file_limit }
    ensures told { F.told files.new ≡ F.told files.old }
    ensures faults { F.faults files.old ≤ F.faults files.new }
    ensures absences { F.absences files.old ≤ F.absences files.new }
    ensures given { F.given files.old ≤ F.given files.new }
    ensures written { IfOk result (λ output. IsModuleJob (F.told files.old) (spec.link (string_bytes second)) bytes.now (written output)) }
    ensures refused { IfErr result (λ refusal. MayAnswer (IsModuleJob (F.told files.old) (spec.link (string_bytes second)) bytes.now) (reason_of refusal)) }
    ensures read_fault { IfErr result (λ refusal. reason_of refusal ≡ read_fault → Rose (F.faults files.old) (F.faults files.new)) }
    ensures missing { IfErr result (λ refusal. (is_script : Bool) (file : List ℕ) → reason_of refusal ≡ missing is_script file → Rose (F.absences files.old) (F.absences files.new)) }
    ensures too_large { IfErr result (λ refusal. (is_script : Bool) (file : List ℕ) → reason_of refusal ≡ too_large is_script file → RoseBy 16777217 (F.given files.old) (F.given files.new)) }
{
    let first = match check_bytes(alloc, bytes) {
        Ok(first) => first,
        Err(fault) => return Err(of_check(fault)),
    };
    match gather(alloc, files, second.as_str(), FILE_LIMIT) {
        Ok(others) => {
            let output = linked_file(alloc, &first, others.as_slice());
            // The command ends soon, and the system takes the memory back faster than piece by piece.
            mem::forget(first);
            match output {
                Ok(output) => Ok(SharedBytes::from_vec(alloc, output)),
                Err(fault) => Err(of_join(fault)),
            }
        }
        Err(fault) => Err(of_gathering(fault, true, second)),
    }
}
