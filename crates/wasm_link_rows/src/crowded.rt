// Functions with a call by an entry and no room for one more local.

ghost use Rattle.std.specs.Prelude.{◌≡◌, ◌≤◌, ◌*◌, ◌^◌, ◌&&◌, length, map, nat_le, IfOk};
ghost use Rattle.wasm_tree.specs.Views.{body_of, code_of, instr_of, locals_in, module_of};
ghost use Rattle.wasm_lang_valid.specs.Validity.{own_type};
ghost use Rattle.wasm_link_lang.specs.Refusal as plain;

use std::alloc::{AllocError, Global};
use wasm_link_bind::imported_functions;
use wasm_tree::{Body, Code, Instr, Module, Run, ValType};

/// The number of the first such function.
pub fn crowded(alloc: Global, module: &Module<'_>) -> Result<Option<usize>, AllocError>
    ensures { IfOk result (λ f. f ≡ plain.crowded (module_of «module».now) 0 (module_of «module».now).bodies) }
{
    let imported = imported_functions(module.imports.as_slice());
    for (i, body) in module.bodies.as_slice().iter().enumerate() {
        if is_crowded(alloc, module, i, body)? {
            return Ok(Some(imported + i));
        }
    }
    Ok(None)
}

#[tactic(auto, using(crate::proofs::Locals::too_few, crate::proofs::Locals::many))]
fn is_crowded(
    alloc: Global,
    module: &Module<'_>,
    i: usize,
    body: &Body<'_>,
) -> Result<bool, AllocError>
    ensures { IfOk result (λ crowded. crowded ≡ (plain.has_indirect (body_of body.now).code && nat_le 60000 (plain.locals_of (module_of «module».now) i (body_of body.now)))) }
{
    if locals_count(module, i, body) < 60_000 {
        return Ok(false);
    }
    has_indirect(alloc, &body.code)
}

/// Whether a call by an entry stands in code.
pub fn has_indirect(alloc: Global, code: &Code<'_>) -> Result<bool, AllocError>
    ensures { IfOk result (λ has. has ≡ plain.has_indirect (code_of code.now)) }
{
    let code = code.instrs(alloc)?;
    Ok(is_indirect_among(code.as_slice()))
}

fn is_indirect_among(code: &[Instr]) -> bool
    ensures { result ≡ plain.has_indirect (map instr_of code.now) }
{
    for instr in code {
        if is_indirect(instr) {
            return true;
        }
    }
    false
}

fn is_indirect(instr: &Instr) -> bool
    ensures { result ≡ plain.is_indirect (instr_of instr.now) }
{
    matches!(instr, Instr::CallIndirect(_))
}

/// How many locals the body at this place has, with the parameters.
pub fn locals_count(module: &Module<'_>, i: usize, body: &Body<'_>) -> u128
    ensures value { result ≡ plain.locals_of (module_of «module».now) i (body_of body.now) }
{
    own_params(module, i).len() as u128 + runs_count(body.locals.as_slice())
}

#[tactic(auto, using(crate::proofs::Locals::runs_step))]
fn runs_count(runs: &[Run]) -> u128
    ensures value { result ≡ length (locals_in runs.now) }
    ensures few { result ≤ 2 ^ 32 * length runs.now }
{
    let _length = runs.len();
    let mut count = 0;
    for run in runs {
        count += u128::from(run.count);
    }
    count
}

// The parameters of the function at this place.
fn own_params<'m>(module: &'m Module<'_>, i: usize) -> &'m [ValType]
    ensures { result.now ≡ (own_type (module_of «module».now) i).params }
{
    match module.functions.get(i) {
        None => &[],
        Some(t) => match module.types.get(*t as usize) {
            None => &[],
            Some(own) => own.params.as_slice(),
        },
    }
}
