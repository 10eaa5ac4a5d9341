//! The list of functions.
ghost use Rattle.std.specs.Prelude.{◌≡◌, ◌++◌, ◌∷◌, [], None, map, slice_get, IfOk};
ghost use Rattle.sem_words.specs.Lists.{list_items};
ghost use Rattle.asm_tree.specs.Views.{function_view};
ghost use Rattle.wasm_tree.specs.Views.{module_of};
ghost use Rattle.wasm_lang_valid.specs.Measures.{measures_of};
ghost use Rattle.wasm_lang_valid.specs.Validity.{IsValidModule};
ghost use Rattle.wasm_lang_exec.specs.Reductions.{callees};
ghost use Rattle.wasm2js_translation.specs.Modules as modules;
ghost use Rattle.wasm2js_functions.specs.Facts.{FactsOf};
ghost use Rattle.wasm2js_functions.specs.Listing.{wrapper_for, wrappers_from, own_at, own_from};

use crate::facts::{Facts, facts_of};
use crate::own::own_function;
use crate::wrappers::wrapper;
use asm_tree::Function;
use sem_words::List;
use std::alloc::{AllocError, Global};
use wasm_tree::Module;
use wasm_validate::Valid;

fn push(functions: &mut List<Function>, function: Function) -> Result<(), AllocError>
    ensures { IfOk result (λ _. map function_view (list_items functions.new) ≡ map function_view (list_items functions.old) ++ function_view function ∷ []) }
{
    match functions.push(function) {
        Ok(()) => Ok(()),
        Err(_) => Err(AllocError),
    }
}

// A function of no type has no wrapper.
pub(crate) fn push_wrapper(
    alloc: Global,
    module: &Module<'_>,
    number: u64,
    type_number: u32,
    functions: &mut List<Function>,
) -> Result<(), AllocError>
    ensures { IfOk result (λ _. map function_view (list_items functions.new) ≡ map function_view (list_items functions.old) ++ wrapper_for number (slice_get (module_of «module».now).types type_number)) }
{
    let Some(function_type) = module.types.get(type_number as usize) else {
        return Ok(());
    };
    let made = wrapper(alloc, number, function_type)?;
    push(functions, made)?;
    Ok(())
}

// Those that call the imported functions.
fn push_wrappers(
    alloc: Global,
    module: &Module<'_>,
    types: &[u32],
    functions: &mut List<Function>,
) -> Result<(), AllocError>
    ensures { IfOk result (λ _. map function_view (list_items functions.new) ≡ map function_view (list_items functions.old) ++ wrappers_from (module_of «module».now) 0 types.now) }
{
    for (number, type_number) in types.iter().enumerate() {
        push_wrapper(alloc, module, number as u64, *type_number, functions)?;
    }
    Ok(())
}

// A function of no type, or with no body, is none.
pub(crate) fn push_own(
    alloc: Global,
    module: &Module<'_>,
    facts: &Facts,
    number: u64,
    place: usize,
    functions: &mut List<Function>,
) -> Result<(), AllocError>
    requires valid { IsValidModule (module_of «module».now) }
    requires facts { FactsOf facts.now (module_of «module».now) }
    requires translated { (measures_of (module_of «module».now)).mul_div ≡ None }
    ensures { IfOk result (λ _. let m = module_of «module».now in map function_view (list_items functions.new) ≡ map function_view (list_items functions.old) ++ own_at m number (slice_get m.functions place) (slice_get m.bodies place)) }
{
    let Some(type_number) = module.functions.get(place) else {
        return Ok(());
    };
    let Some(body) = module.bodies.get(place) else {
        return Ok(());
    };
    let Some(function_type) = module.types.get(*type_number as usize) else {
        return Ok(());
    };
    let made = own_function(alloc, module, facts, number, function_type, body)?;
    push(functions, made)?;
    Ok(())
}

// Those that the module defines.
fn push_all_own(
    alloc: Global,
    module: &Module<'_>,
    facts: &Facts,
    functions: &mut List<Function>,
) -> Result<(), AllocError>
    requires valid { IsValidModule (module_of «module».now) }
    requires facts { FactsOf facts.now (module_of «module».now) }
    requires translated { (measures_of (module_of «module».now)).mul_div ≡ None }
    ensures { IfOk result (λ _. let m = module_of «module».now in map function_view (list_items functions.new) ≡ map function_view (list_items functions.old) ++ own_from m facts.now.imported m.functions m.bodies) }
{
    for number in facts.imported..facts.functions.len() {
        let place = number - facts.imported;
        push_own(alloc, module, facts, number as u64, place, functions)?;
    }
    Ok(())
}

/// The functions of a valid module without products, quotients and remainders of words of 64 bits, the imported ones first.
pub fn push_functions(
    alloc: Global,
    valid: &Valid<'_>,
    functions: &mut List<Function>,
) -> Result<(), AllocError>
    requires { (measures_of valid.now).mul_div ≡ None }
    ensures { IfOk result (λ _. map function_view (list_items functions.new) ≡ map function_view (list_items functions.old) ++ modules.functions_from valid.now 0 (callees valid.now)) }
{
    let module = valid.module();
    let facts = facts_of(alloc, module)?;
    let imported = &facts.functions[..facts.imported];
    push_wrappers(alloc, module, imported, functions)?;
    push_all_own(alloc, module, &facts, functions)?;
    Ok(())
}
