//! Which scripts fit.

ghost use Rattle.std.specs.Prelude.{◌≡◌, None, Some, IfOk, MatchResult};
ghost use Rattle.session_lang.specs.Views.{script_of};
ghost use Rattle.asm_tree.specs.Views.{module_view};
ghost use Rattle.asm_lang_valid.specs.Refusal.{foreign_globals};
ghost use Rattle.session_lang.specs.Fits.{least, unfit_lines};
ghost use Rattle.asm_lang_exec.specs.Fits.{tests, misfit};
ghost use Rattle.asm_run_state.specs.Session.{callees_of};

use crate::calls::first_call;
use crate::exports::callees;
use crate::globals::{are_given, first_global, imported_globals};
use crate::writes::{first_reply, first_write};
use asm_validate::Checked;
use name_slots::Slots;
use script_lines::Lines;
use session_lang::{Misfit, Script, earlier};
use std::alloc::{AllocError, Global};

// The first line that doesn't fit.
fn first_unfit(
    checked: &Checked,
    heap_len: u32,
    script: &Script,
    imported: &Slots<'_>,
    lines: &Lines<'_>,
    callees: &[Option<u32>],
) -> Option<u64>
    requires imported { imported.now ≡ foreign_globals (module_view checked.now) }
    requires lines { lines.now ≡ (script_of script.now).globals }
    requires callees { callees.now ≡ callees_of (module_view checked.now) (script_of script.now).calls }
    ensures { result ≡ least (unfit_lines (tests (module_view checked.now) heap_len) (script_of script.now)) }
{
    let globals = first_global(imported, lines);
    let writes = first_write(checked, heap_len, script.writes.as_slice());
    let calls = first_call(checked, callees, script.calls.as_slice());
    let replies = first_reply(checked, heap_len, script.replies.as_slice());
    earlier(earlier(earlier(globals, writes), calls), replies)
}

// Whether the script fits, by the module's imported globals, the script's lines of globals and the functions that its calls name.
fn fits_by(
    checked: &Checked,
    heap_len: u32,
    script: &Script,
    imported: &Slots<'_>,
    lines: &Lines<'_>,
    callees: &[Option<u32>],
) -> Result<(), Misfit>
    requires imported { imported.now ≡ foreign_globals (module_view checked.now) }
    requires lines { lines.now ≡ (script_of script.now).globals }
    requires callees { callees.now ≡ callees_of (module_view checked.now) (script_of script.now).calls }
    ensures { MatchResult result (λ _. misfit (module_view checked.now) heap_len (script_of script.now) ≡ None) (λ refused. misfit (module_view checked.now) heap_len (script_of script.now) ≡ Some refused.line) }
{
    match first_unfit(checked, heap_len, script, imported, lines, callees) {
        Some(line) => Err(Misfit { line }),
        None => {
            if are_given(checked, lines) {
                Ok(())
            } else {
                Err(Misfit { line: 0 })
            }
        }
    }
}

/// Whether a script fits an accepted module with a heap of this length: each of its globals is imported
/// and given once, its bytes and those of replies lie in the heap, each call names an exported function
/// and has an argument for each parameter, values of globals and arguments lie in [-2^31, 2^32), and
/// each imported global is given.
///
/// Where it fits, it comes with the numbers of the functions that its calls name, in order. The refusal has the first line that doesn't fit, or 0
/// where only a global is missing. An error of memory says nothing of the script.
pub fn fits_asm(
    alloc: Global,
    checked: &Checked,
    heap_len: u32,
    script: &Script,
) -> Result<Result<Vec<Option<u32>>, Misfit>, AllocError>
    ensures fits { IfOk result (λ answer. MatchResult answer (λ _. misfit (module_view checked.now) heap_len (script_of script.now) ≡ None) (λ refused. misfit (module_view checked.now) heap_len (script_of script.now) ≡ Some refused.line)) }
    ensures callees { IfOk result (λ answer. IfOk answer (λ callees. callees.items ≡ callees_of (module_view checked.now) (script_of script.now).calls)) }
{
    let lines = Lines::new(alloc, script.globals.as_slice())?;
    let imported = imported_globals(alloc, checked)?;
    let functions = callees(alloc, checked, script.calls.as_slice())?;
    let callees = functions.as_slice();
    match fits_by(checked, heap_len, script, &imported, &lines, callees) {
        Ok(()) => Ok(Ok(functions)),
        Err(misfit) => Ok(Err(misfit)),
    }
}
