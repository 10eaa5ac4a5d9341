// What function imports are bound to.

ghost use Rattle.std.specs.Prelude.{◌≡◌, ◌≤◌, ◌^◌, ◌+◌, ◌++◌, List, length, map, replicate, None, not, ◌&&◌, OnOk, option_map};
ghost use Rattle.std.specs.Prelude.{nat_eq};
ghost use Rattle.std.specs.Cmp.Lexicographic.{pointwise};
ghost use Rattle.wasm_tree.specs.Views.{import_of};
ghost use Rattle.wasm_lang_valid.specs.Measures as measures;
ghost use Rattle.wasm_link_lang.specs.Pairs as pairs;
ghost use Rattle.wasm_link_lang.specs.Pairs.{function_imports};

use crate::exported::Exporting;
use std::alloc::AllocError;
use wasm_lang::ImportKind;
use wasm_tree::Import;

/// The function of the other module that an import is bound to.
pub fn bound_to(other: &Exporting<'_>, import: &Import<'_>) -> Option<u32>
    ensures { result ≡ pairs.bound_to other.now (import_of import.now) }
{
    if may_be_bound(import) {
        other.function(import.field.as_bytes())
    } else {
        None
    }
}

// Whether it is a function of `env` that isn't the host's.
fn may_be_bound(import: &Import<'_>) -> bool
    ensures { result ≡ (measures.is_function_import (import_of import.now).kind && pointwise nat_eq (import_of import.now).module_name measures.env_name && not (measures.is_given (import_of import.now))) }
{
    is_function(import.kind) && import.module.as_bytes() == b"env".as_slice() && !is_given(import)
}

/// Whether a function is imported.
pub fn is_function(kind: ImportKind) -> bool
    ensures { result ≡ measures.is_function_import kind }
{
    matches!(kind, ImportKind::Func(_))
}

// Whether it is one of the two functions of `env` that every module has.
fn is_given(import: &Import<'_>) -> bool
    ensures { result ≡ measures.is_given (import_of import.now) }
{
    let field = import.field.as_bytes();
    import.module.as_bytes() == b"env".as_slice()
        && (field == b"$high".as_slice() || field == b"$trap".as_slice())
}

/// Appends, for each function import, the address of what it is bound to, where the other module's addresses begin at `base`.
pub fn push_bound(
    bound: &mut Vec<Option<usize>>,
    other: &Exporting<'_>,
    base: usize,
    imports: &[Import<'_>],
) -> Result<(), AllocError>
    requires { base ≤ 2 ^ 62 }
    ensures { OnOk result (bound.new.items ≡ bound.old.items ++ map (λ i. option_map (λ f. base + f) (pairs.bound_to other.now i)) (function_imports (map import_of imports.now))) }
{
    for import in imports {
        if is_function(import.kind) {
            bound.push(past(base, bound_to(other, import)))?;
        }
    }
    Ok(())
}

// The address of a function whose module's addresses begin at `base`.
fn past(base: usize, function: Option<u32>) -> Option<usize>
    requires { base ≤ 2 ^ 62 }
    ensures { result ≡ option_map (λ f. base + f) function }
{
    match function {
        Some(function) => Some(base + function as usize),
        None => None,
    }
}

/// Appends None so many times.
pub fn push_unbound(bound: &mut Vec<Option<usize>>, count: usize) -> Result<(), AllocError>
    ensures { OnOk result (bound.new.items ≡ bound.old.items ++ replicate count None) }
{
    for _function in 0..count {
        bound.push(None)?;
    }
    Ok(())
}
