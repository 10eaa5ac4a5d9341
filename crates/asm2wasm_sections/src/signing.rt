//! Functions, by the numbers of their types.
ghost use Rattle.std.specs.Prelude.{◌≡◌, map, IfOk};
ghost use Rattle.sem_words.specs.Lists.{list_items};
ghost use Rattle.asm_tree.specs.Views.{module_view, function_view};
ghost use Rattle.asm_lang_valid.specs.Scope.{signature_of};
ghost use Rattle.asm2wasm_translation.specs.Numbers.{type_number};
ghost use Rattle.asm2wasm_sections.specs.Few.{FewTypes};

use asm_tree::Function;
use asm_validate_exprs::signature_of;
use asm2wasm_numbers::ModuleNumbers;
use sem_words::List;
use std::alloc::{AllocError, Global};

/// The number of the type of each function.
pub fn functions(
    alloc: Global,
    functions: &[Function],
    numbers: &ModuleNumbers<'_>,
) -> Result<List<u32>, AllocError>
    requires few { FewTypes (module_view numbers.now) }
    ensures { IfOk result (λ types. list_items types ≡ map (λ f. type_number (module_view numbers.now) (signature_of f)) (map function_view functions.now)) }
{
    let mut types = Vec::new(alloc);
    for function in functions {
        types.push(type_of(function, numbers))?;
    }
    Ok(List::from_vec(types))
}

fn type_of(function: &Function, numbers: &ModuleNumbers<'_>) -> u32
    requires few { FewTypes (module_view numbers.now) }
    ensures { result ≡ type_number (module_view numbers.now) (signature_of (function_view function.now)) }
{
    let signature = signature_of(function);
    numbers.type_number(signature.params, signature.result) as u32
}
