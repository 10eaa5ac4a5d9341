//! A script on a module.
ghost use Rattle.std.specs.Prelude.{◌≡◌, None, IfOk, MatchResult};
ghost use Rattle.session_lang.specs.Views.{script_of};
ghost use Rattle.script_lang.specs.Texts as spec;
ghost use Rattle.wasm_lang_exec.specs.Fits.{misfit};
ghost use Rattle.wasm_lang_exec.specs.Session.{wasm};
ghost use Rattle.wasm_lang_valid.specs.Runnable.{not_runnable};
ghost use Rattle.wasm_run.specs.Exports.{callees_of};
ghost use Rattle.bridge_lang.specs.WasmRuns.{Prints};
ghost use Rattle.cmd_run_wasm.specs.Runs.{IsScriptRefusal};

use script_read::{ScriptFault, read_script};
use session_lang::Script;
use session_print::observation_text;
use std::alloc::{AllocError, Global};
use wasm_run::{Instance, fits_wasm};
use wasm_validate::Valid;

/// What is printed of a run of the script's text, after so many reductions. A refusal is the first line that isn't in the grammar of
/// scripts, or else the first that doesn't fit the module, 0 for a global that has no line.
pub fn run_script(
    alloc: Global,
    valid: &Valid<'_>,
    text: &[u8],
    steps: u32,
) -> Result<Vec<u8>, ScriptFault>
    requires runs { not_runnable valid.now ≡ None }
    ensures { MatchResult result (λ output. Prints valid.now text.now steps output.items) (IsScriptRefusal valid.now text.now) }
{
    let script = read_script(alloc, text)?;
    match fits_wasm(alloc, valid, &script)? {
        Ok(callees) => Ok(observation(alloc, valid, &script, callees, steps)?),
        Err(misfit) => Err(ScriptFault::Refused { line: misfit.line }),
    }
}

// What is printed of the session of a script that fits, of whose calls the functions are these.
fn observation(
    alloc: Global,
    valid: &Valid<'_>,
    script: &Script,
    callees: Vec<Option<u32>>,
    steps: u32,
) -> Result<Vec<u8>, AllocError>
    requires runs { not_runnable valid.now ≡ None }
    requires fits { misfit valid.now (script_of script.now) ≡ None }
    requires callees { callees.items ≡ callees_of valid.now (script_of script.now).calls }
    ensures { IfOk result (λ output. output.items ≡ spec.observation_text (wasm valid.now (script_of script.now) steps)) }
{
    let instance = Instance::start(alloc, valid, script, callees)?;
    let seen = instance.run(u64::from(steps))?;
    observation_text(alloc, &seen)
}
