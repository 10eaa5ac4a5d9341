// The calls of a script.

ghost use Rattle.std.specs.Prelude.{◌≡◌, Some, map};
ghost use Rattle.std.specs.List.{list_all};
ghost use Rattle.session_lang.specs.Script.{CallPlain};
ghost use Rattle.session_lang.specs.Views.{call_of};
ghost use Rattle.asm_tree.specs.Views.{function_view, module_view};
ghost use Rattle.session_lang.specs.Fits as parts;
ghost use Rattle.asm_lang_exec.specs.Fits;
ghost use Rattle.asm_run_code.specs.Sessions.{key_number};
ghost use Rattle.asm_run_state.specs.Session.{callees_of};

use crate::exports::numbered;
use crate::ranges::in_range;
use asm_tree::Function;
use asm_validate::Checked;
use session_lang::{CallLine, lesser};

fn are_in_range(args: &[i128]) -> bool
    ensures { result ≡ list_all Fits.in_range args.now }
{
    args.iter().all(|arg| in_range(*arg))
}

// Whether there is an argument for each parameter, in range.
fn takes(function: &Function, args: &[i128]) -> bool
    ensures { result ≡ Fits.takes (Some (function_view function.now)) args.now }
{
    args.len() == function.params.len() && are_in_range(args)
}

// Whether a call of the function of this number, if its name is that of one, fits.
fn fits_call(checked: &Checked, callee: Option<u32>, call: &CallLine) -> bool
    requires { callee ≡ key_number (module_view checked.now) (call_of call.now).name }
    ensures { result ≡ Fits.fits_call (module_view checked.now) (call_of call.now) }
{
    match numbered(checked.module().functions.as_slice(), callee) {
        None => false,
        Some(function) => takes(function, call.args.as_slice()),
    }
}

/// The first line of a call that doesn't fit, by the numbers of the functions that the calls name.
#[tactic(auto, using(session_lang::proofs::FirstLines::earlier_lesser, session_lang::proofs::FirstLines::earlier_none))]
pub fn first_call(checked: &Checked, callees: &[Option<u32>], calls: &[CallLine]) -> Option<u64>
    requires { callees.now ≡ callees_of (module_view checked.now) (map call_of calls.now) }
    ensures { result ≡ parts.least (parts.lines_of (Fits.fits_call (module_view checked.now)) (λ (c : CallPlain). c.line) (map call_of calls.now)) }
{
    let mut first = None;
    for (i, call) in calls.iter().enumerate() {
        if !fits_call(checked, callees[i], call) {
            first = lesser(call.line, first);
        }
    }
    first
}
