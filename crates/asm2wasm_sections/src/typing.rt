//! Types of functions.
ghost use Rattle.std.specs.Prelude.{◌≡◌, [], ◌∷◌, map, IfOk, if◌then◌else◌};
ghost use Rattle.sem_words.specs.Lists.{list_items};
ghost use Rattle.wasm_lang.specs.declared.types.ValType.TheVariants.{I32};
ghost use Rattle.wasm_tree.specs.Views.{type_of};
ghost use Rattle.asm2wasm_translation.specs.Modules.{type_for};
ghost use Rattle.asm2wasm_numbers.specs.Signatures.{signature_said};

use asm2wasm_numbers::Signature;
use sem_words::List;
use std::alloc::{AllocError, Global};
use wasm_tree::{FuncType, ValType};

/// The types of functions with these signatures.
pub fn types(alloc: Global, signatures: &[Signature]) -> Result<List<FuncType>, AllocError>
    ensures { IfOk result (λ types. map type_of (list_items types) ≡ map type_for (map signature_said signatures.now)) }
{
    let mut types = Vec::new(alloc);
    for signature in signatures {
        types.push(type_for(alloc, signature)?)?;
    }
    Ok(List::from_vec(types))
}

// From so many ints to an int, or to nothing.
fn type_for(alloc: Global, signature: &Signature) -> Result<FuncType, AllocError>
    ensures { IfOk result (λ t. type_of t ≡ type_for (signature_said signature.now)) }
{
    let params = Vec::from_elem(alloc, ValType::I32, signature.params)?;
    Ok(FuncType {
        params: List::from_vec(params),
        results: results(alloc, signature.result)?,
    })
}

fn results(alloc: Global, valued: bool) -> Result<List<ValType>, AllocError>
    ensures { IfOk result (λ results. list_items results ≡ (if valued then I32 ∷ [] else [])) }
{
    let mut results = Vec::new(alloc);
    if valued {
        results.push(ValType::I32)?;
    }
    Ok(List::from_vec(results))
}
