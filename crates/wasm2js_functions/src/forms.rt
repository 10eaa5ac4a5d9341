//! The forms of a module's types.
ghost use Rattle.std.specs.Prelude.{◌≡◌, Some, map, unwrap_or, IfOk, if◌then◌else◌};
ghost use Rattle.wasm_lang.specs.Modules.{FunctionType};
ghost use Rattle.wasm_lang_valid.specs.Measures.{same_type};
ghost use Rattle.wasm_tree.specs.Views.{type_of};
ghost use Rattle.wasm2js_operands.specs.Forms.{form_numbers};
ghost use Rattle.wasm2js_functions.specs.Forms.{number_in};

use indexmap::IndexMap;
use std::alloc::{AllocError, Global};
use wasm_tree::FuncType;
use wasm_validate_bodies::form_of;

/// For each type the least number of a type of its form.
pub fn forms_of(alloc: Global, types: &[FuncType]) -> Result<Vec<u64>, AllocError>
    ensures { IfOk result (λ forms. forms.items ≡ form_numbers (map type_of types.now)) }
{
    let mut forms = Vec::new(alloc);
    let mut numbers = IndexMap::new(alloc);
    for (number, t) in types.iter().enumerate() {
        let first = first_number(alloc, &mut numbers, t, number as u64)?;
        forms.push(first)?;
    }
    Ok(forms)
}

// The number that the form of this type has, which is this one where it has none so far.
fn first_number(
    alloc: Global,
    numbers: &mut IndexMap<Vec<u8>, u64>,
    t: &FuncType,
    number: u64,
) -> Result<u64, AllocError>
    ensures first { IfOk result (λ first. first ≡ unwrap_or (number_in numbers.old (type_of t.now)) number) }
    ensures noted { IfOk result (λ first. (u : FunctionType) → number_in numbers.new u ≡ (if same_type (type_of t.now) u then Some first else number_in numbers.old u)) }
{
    let form = form_of(alloc, t)?;
    match numbers.get(&form) {
        Some(first) => Ok(*first),
        None => {
            numbers.insert(form, number)?;
            Ok(number)
        }
    }
}
