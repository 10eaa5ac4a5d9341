// The calls of a script.

ghost use Rattle.std.specs.Prelude.{◌≡◌, None, Some, map, MatchOption};
ghost use Rattle.session_lang.specs.Script.{CallPlain};
ghost use Rattle.session_lang.specs.Views.{call_of};
ghost use Rattle.session_lang.specs.Fits as parts;
ghost use Rattle.wasm_lang_exec.specs.Fits;
ghost use Rattle.wasm_lang_exec.specs.Session.{function_named};
ghost use Rattle.wasm_run.specs.Exports.{callees_of};
ghost use Rattle.wasm_run.specs.Forms.{after_argument};

use crate::ranges::in_range;
use session_lang::{CallLine, lesser};
use wasm_lang::ValType;
use wasm_validate::Valid;

// The arguments after the first, where that is in the range of a type.
fn after_argument<'a>(kind: ValType, args: &'a [i128]) -> Option<&'a [i128]>
    ensures { MatchOption result (after_argument kind args.now ≡ None) (λ rest. after_argument kind args.now ≡ Some rest.now) }
{
    match args {
        [arg, rest @ ..] => {
            if in_range(kind, *arg) {
                Some(rest)
            } else {
                None
            }
        }
        [] => None,
    }
}

// Whether there is an argument for each parameter, in the range of its type.
#[tactic(auto, using(crate::proofs::Arguments::taken_some, crate::proofs::Arguments::taken_none))]
fn takes_arguments(params: &[ValType], args: &[i128]) -> bool
    ensures { result ≡ Fits.takes_arguments params.now args.now }
{
    let mut rest = args;
    for param in params {
        match after_argument(*param, rest) {
            Some(after) => rest = after,
            None => return false,
        }
    }
    match rest {
        [] => true,
        [_, ..] => false,
    }
}

// Whether a call of this function, if its name is that of one, fits.
#[tactic(auto, using(crate::proofs::Arguments::past_all))]
fn fits_call(valid: &Valid<'_>, callee: Option<u32>, call: &CallLine) -> bool
    requires { callee ≡ function_named valid.now.exports (call_of call.now).name }
    ensures { result ≡ Fits.fits_call valid.now (call_of call.now) }
{
    match callee {
        None => false,
        Some(function) => match valid.func_type(function) {
            None => false,
            Some(kind) => takes_arguments(kind.params.as_slice(), call.args.as_slice()),
        },
    }
}

/// The first line of a call that doesn't fit, by the functions that the calls name.
#[tactic(auto, using(session_lang::proofs::FirstLines::earlier_lesser, session_lang::proofs::FirstLines::earlier_none))]
pub fn first_call(valid: &Valid<'_>, functions: &[Option<u32>], calls: &[CallLine]) -> Option<u64>
    requires { functions.now ≡ callees_of valid.now (map call_of calls.now) }
    ensures { result ≡ parts.least (parts.lines_of (Fits.fits_call valid.now) (λ (c : CallPlain). c.line) (map call_of calls.now)) }
{
    let mut first = None;
    for (i, call) in calls.iter().enumerate() {
        if !fits_call(valid, functions[i], call) {
            first = lesser(call.line, first);
        }
    }
    first
}
