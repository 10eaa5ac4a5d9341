// The types that indirect calls name.

ghost use Rattle.std.specs.Prelude.{map, IfOk};
ghost use Rattle.wasm_tree.specs.Views.{body_of, type_of};
ghost use Rattle.wasm_lang_valid.specs.Measures.{called_types};
ghost use Rattle.wasm_validate_bodies.specs.Calls.{IsCalled};

use std::alloc::{AllocError, Global};
use wasm_tree::{Body, FuncType};
use wasm_validate_bodies::Called;

/// The types that the indirect calls of these bodies name.
pub fn called_of(
    alloc: Global,
    types: &[FuncType],
    bodies: &[Body<'_>],
) -> Result<Called, AllocError>
    ensures { IfOk result (λ called. IsCalled called (map type_of types.now) (called_types (map type_of types.now) (map body_of bodies.now))) }
{
    let mut called = Called::new(alloc);
    for body in bodies {
        let code = body.code.instrs(alloc)?;
        called.add(alloc, types, code.as_slice())?;
    }
    Ok(called)
}
