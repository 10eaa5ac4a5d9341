// Which scripts fit.

ghost use Rattle.std.specs.Prelude.{◌≡◌, None, Some, IfOk, MatchResult};
ghost use Rattle.session_lang.specs.Script.{WritePlain, CallPlain, ReplyLinePlain};
ghost use Rattle.session_lang.specs.Views.{script_of};
ghost use Rattle.session_lang.specs.Fits.{least, lines_of, unfit_lines};
ghost use Rattle.wasm_lang_exec.specs.Fits;
ghost use Rattle.wasm_lang_exec.specs.Fits.{global_imports, tests, misfit};
ghost use Rattle.wasm_run.specs.Exports.{callees_of};

use crate::calls::first_call;
use crate::exports::callees;
use crate::globals::first_global;
use crate::imported::{Imported, imported_globals};
use crate::writes::{first_reply, first_write, imported_pages, memory_pages};
use script_lines::Lines;
use session_lang::{Misfit, Script, earlier};
use std::alloc::{AllocError, Global};
use wasm_validate::Valid;

fn first_in_writes(valid: &Valid<'_>, script: &Script) -> Option<u64>
    ensures { result ≡ least (lines_of (Fits.fits_write valid.now) (λ (w : WritePlain). w.line) (script_of script.now).writes) }
{
    let pages = imported_pages(valid.module().imports.as_slice());
    first_write(pages, script.writes.as_slice())
}

fn first_in_calls(valid: &Valid<'_>, script: &Script, functions: &[Option<u32>]) -> Option<u64>
    requires { functions.now ≡ callees_of valid.now (script_of script.now).calls }
    ensures { result ≡ least (lines_of (Fits.fits_call valid.now) (λ (c : CallPlain). c.line) (script_of script.now).calls) }
{
    first_call(valid, functions, script.calls.as_slice())
}

fn first_in_replies(valid: &Valid<'_>, script: &Script) -> Option<u64>
    ensures { result ≡ least (lines_of (λ (r : ReplyLinePlain). Fits.fits_reply valid.now r.reply) (λ r. r.line) (script_of script.now).replies) }
{
    let pages = memory_pages(valid.module());
    first_reply(pages, script.replies.as_slice())
}

// The first line that doesn't fit.
fn first_unfit(
    valid: &Valid<'_>,
    script: &Script,
    imported: &Imported<'_>,
    lines: &Lines<'_>,
    functions: &[Option<u32>],
) -> Option<u64>
    requires imported { imported.now ≡ global_imports valid.now.imports }
    requires lines { lines.now ≡ (script_of script.now).globals }
    requires functions { functions.now ≡ callees_of valid.now (script_of script.now).calls }
    ensures { result ≡ least (unfit_lines (tests valid.now) (script_of script.now)) }
{
    let globals = first_global(imported, lines);
    let writes = first_in_writes(valid, script);
    let calls = first_in_calls(valid, script, functions);
    let replies = first_in_replies(valid, script);
    earlier(earlier(earlier(globals, writes), calls), replies)
}

// Whether the script fits, by the module's imported globals, the script's lines of globals and the functions that its calls name.
fn fits_by(
    valid: &Valid<'_>,
    script: &Script,
    imported: &Imported<'_>,
    lines: &Lines<'_>,
    functions: &[Option<u32>],
) -> Result<(), Misfit>
    requires imported { imported.now ≡ global_imports valid.now.imports }
    requires lines { lines.now ≡ (script_of script.now).globals }
    requires functions { functions.now ≡ callees_of valid.now (script_of script.now).calls }
    ensures { MatchResult result (λ _. misfit valid.now (script_of script.now) ≡ None) (λ refused. misfit valid.now (script_of script.now) ≡ Some refused.line) }
{
    match first_unfit(valid, script, imported, lines, functions) {
        Some(line) => Err(Misfit { line }),
        None => {
            if imported.are_given(lines) {
                Ok(())
            } else {
                Err(Misfit { line: 0 })
            }
        }
    }
}

/// Whether a script fits a module: each of its globals is imported, is given once, and has a value in
/// the range of its type; each write lies in an imported memory, and those of replies in the memory;
/// each call names an exported function and has an argument for each parameter, in the range of its
/// type; and each imported global is given.
///
/// Where it fits, it comes with the functions that its calls name, in order. The refusal has the first line that doesn't fit, or 0 where
/// only a global is missing. An error of memory says nothing of the script.
pub fn fits_wasm(
    alloc: Global,
    valid: &Valid<'_>,
    script: &Script,
) -> Result<Result<Vec<Option<u32>>, Misfit>, AllocError>
    ensures fits { IfOk result (λ answer. MatchResult answer (λ _. misfit valid.now (script_of script.now) ≡ None) (λ refused. misfit valid.now (script_of script.now) ≡ Some refused.line)) }
    ensures functions { IfOk result (λ answer. IfOk answer (λ functions. functions.items ≡ callees_of valid.now (script_of script.now).calls)) }
{
    let lines = Lines::new(alloc, script.globals.as_slice())?;
    let globals = imported_globals(alloc, valid.module().imports.as_slice())?;
    let imported = Imported::new(alloc, globals.as_slice())?;
    let functions = callees(alloc, valid, script.calls.as_slice())?;
    match fits_by(valid, script, &imported, &lines, functions.as_slice()) {
        Ok(()) => Ok(Ok(functions)),
        Err(misfit) => Ok(Err(misfit)),
    }
}
