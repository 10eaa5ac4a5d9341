//! A script on a module.
ghost use Rattle.std.specs.Prelude.{◌≡◌, None, IfOk, MatchResult};
ghost use Rattle.heap_lang.specs.Heap.{IsHeapLength};
ghost use Rattle.session_lang.specs.Views.{script_of};
ghost use Rattle.asm_tree.specs.Views.{module_view};
ghost use Rattle.asm_lang_exec.specs.Fits.{misfit};
ghost use Rattle.asm_run_state.specs.Session.{callees_of};
ghost use Rattle.bridge_lang.specs.AsmRuns.{Prints, Shows};
ghost use Rattle.cmd_run_asm.specs.Runs.{IsScriptRefusal};

use asm_run::{Session, fits_asm};
use asm_validate::Checked;
use script_read::{ScriptFault, read_script};
use session_lang::Script;
use session_print::observation_text;
use std::alloc::{AllocError, Global};

/// What is printed of a run of the script's text with a heap of so many bytes and so many units. A refusal is the first line that
/// isn't in the grammar of scripts, or else the first that doesn't fit the module, 0 for a global that has no line.
pub fn run_script(
    alloc: Global,
    checked: &Checked,
    heap_len: u32,
    text: &[u8],
    budget: u32,
) -> Result<Vec<u8>, ScriptFault>
    requires { IsHeapLength heap_len }
    ensures { MatchResult result (λ output. Prints (module_view checked.now) heap_len text.now budget output.items) (IsScriptRefusal (module_view checked.now) heap_len text.now) }
{
    let script = read_script(alloc, text)?;
    match fits_asm(alloc, checked, heap_len, &script)? {
        Ok(callees) => Ok(observation(alloc, checked, heap_len, &script, callees, budget)?),
        Err(misfit) => Err(ScriptFault::Refused { line: misfit.line }),
    }
}

// What is printed of the session of a script that fits, whose calls name these functions.
fn observation<'a>(
    alloc: Global,
    checked: &'a Checked,
    heap_len: u32,
    script: &'a Script,
    callees: Vec<Option<u32>>,
    budget: u32,
) -> Result<Vec<u8>, AllocError>
    requires fits { misfit (module_view checked.now) heap_len (script_of script.now) ≡ None }
    requires length { IsHeapLength heap_len }
    requires callees { callees.items ≡ callees_of (module_view checked.now) (script_of script.now).calls }
    ensures { IfOk result (λ output. Shows (module_view checked.now) heap_len (script_of script.now) budget output.items) }
{
    let session = Session::link(alloc, checked, heap_len, script, callees)?;
    let seen = session.run(alloc, u64::from(budget))?;
    observation_text(alloc, &seen)
}
