//! The list of functions.
ghost use Rattle.std.specs.Prelude.{◌≡◌, ◌++◌, ◌∷◌, [], List, Option, map, slice_get, IfOk, OnOk};
ghost use Rattle.wasm_lang.specs.Modules.{WasmModule};
ghost use Rattle.wasm_lang.specs.Shape.{IsShaped};
ghost use Rattle.wasm_tree.specs.Views.{import_of, module_of};
ghost use Rattle.wasm_lang_valid.specs.Validity.{IsValidModule};
ghost use Rattle.wasm_lang_exec.specs.Reductions as meaning;
ghost use Rattle.wasm_lang_exec.specs.Reductions.{imported_callees, own_callees};
ghost use Rattle.wasm_run_machine.specs.Functions.{AreFunctions, AllHaveForms};
ghost use Rattle.wasm_run_start.specs.Listing.{HasType, HaveTypes, AreReady, own_of};

use session_lang::import_name;
use std::alloc::{AllocError, Global};
use wasm_lang::ImportKind;
use wasm_run_flat::Body;
use wasm_run_machine::{Callee, Function};
use wasm_tree::{Import, Module};

fn push(functions: &mut Vec<Function>, function: Function) -> Result<(), AllocError>
    ensures { OnOk result (functions.new.items ≡ functions.old.items ++ function ∷ []) }
{
    match functions.push(function) {
        Ok(()) => Ok(()),
        Err(_) => Err(AllocError),
    }
}

// Adds the function of an import, if it imports one.
fn add_import(
    alloc: Global,
    functions: &mut Vec<Function>,
    import: &Import<'_>,
) -> Result<(), AllocError>
    ensures { OnOk result ((m : WasmModule) (cs : List (Option meaning.Callee)) → HasType m import.now.kind
        → AreReady m functions.old.items cs → AreReady m functions.new.items (cs ++ imported_callees m (import_of import.now ∷ []))) }
{
    match import.kind {
        ImportKind::Func(kind) => {
            let name = import_name(alloc, import.module.as_bytes(), import.field.as_bytes())?;
            let callee = Callee::Import(name);
            push(functions, Function { kind, callee })?;
            Ok(())
        }
        ImportKind::Table(_) | ImportKind::Memory(_) | ImportKind::Global(_) => Ok(()),
    }
}

// Adds the imported functions, in order.
fn add_imported(
    alloc: Global,
    functions: &mut Vec<Function>,
    imports: &[Import<'_>],
) -> Result<(), AllocError>
    ensures { OnOk result ((m : WasmModule) (cs : List (Option meaning.Callee)) → HaveTypes m (map import_of imports.now)
        → AreReady m functions.old.items cs → AreReady m functions.new.items (cs ++ imported_callees m (map import_of imports.now))) }
{
    for import in imports {
        add_import(alloc, functions, import)?;
    }
    Ok(())
}

// Adds the function whose body stands at a place.
fn add_body(
    alloc: Global,
    functions: &mut Vec<Function>,
    module: &Module<'_>,
    place: usize,
) -> Result<(), AllocError>
    ensures { OnOk result (let m = module_of «module».now in (cs : List (Option meaning.Callee)) → IsValidModule m → IsShaped m
        → AreReady m functions.old.items cs → AreReady m functions.new.items (cs ++ own_of m (slice_get m.functions place) (slice_get m.bodies place))) }
{
    let Some(kind) = module.functions.get(place) else {
        return Ok(());
    };
    let Some(body) = module.bodies.get(place) else {
        return Ok(());
    };
    let kind = *kind;
    let flat = Body::of(alloc, &body.code)?;
    let callee = Callee::Own(flat, place);
    push(functions, Function { kind, callee })?;
    Ok(())
}

// Adds the functions that have a body, in order.
fn add_own(
    alloc: Global,
    functions: &mut Vec<Function>,
    module: &Module<'_>,
) -> Result<(), AllocError>
    ensures { OnOk result (let m = module_of «module».now in (cs : List (Option meaning.Callee)) → IsValidModule m → IsShaped m
        → AreReady m functions.old.items cs → AreReady m functions.new.items (cs ++ own_callees m m.functions m.bodies)) }
{
    for place in 0..module.bodies.len() {
        add_body(alloc, functions, module, place)?;
    }
    Ok(())
}

/// All functions of a valid module, the imported ones first.
pub fn functions_of(alloc: Global, module: &Module<'_>) -> Result<Vec<Function>, AllocError>
    requires valid { IsValidModule (module_of «module».now) }
    requires shaped { IsShaped (module_of «module».now) }
    ensures each { IfOk result (λ functions. AreFunctions (module_of «module».now) functions.items) }
    ensures forms { IfOk result (λ functions. AllHaveForms functions.items) }
{
    let mut functions = Vec::new(alloc);
    add_imported(alloc, &mut functions, module.imports.as_slice())?;
    add_own(alloc, &mut functions, module)?;
    Ok(functions)
}
