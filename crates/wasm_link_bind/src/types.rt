// Bound imports of another type than the functions that they are bound to.

ghost use Rattle.std.specs.Prelude.{◌≡◌, None, Some, MatchOption};
ghost use Rattle.wasm_tree.specs.Views.{import_of, type_of};
ghost use Rattle.wasm_lang_exec.specs.Reductions.{same_types, same_type};
ghost use Rattle.wasm_link_lang.specs.Pairs as pairs;
ghost use Rattle.wasm_link_lang.specs.Refusal as rows;
ghost use Rattle.wasm_link_bind.specs.Types.{typed};

use crate::bound::bound_to;
use crate::exported::Exporting;
use wasm_lang::{ImportKind, ValType};
use wasm_tree::{FuncType, Import};
use wasm_validate::Valid;

/// The number of the first such import.
pub fn other_type(own: &Exporting<'_>, other: &Exporting<'_>) -> Option<usize>
    ensures { result ≡ rows.other_type own.now other.now 0 own.now.imports }
{
    let valid = own.valid();
    for (i, import) in valid.module().imports.as_slice().iter().enumerate() {
        if differs(valid, other, import) {
            return Some(i);
        }
    }
    None
}

// Whether an import of this module is one of them.
fn differs(own: &Valid<'_>, other: &Exporting<'_>, import: &Import<'_>) -> bool
    ensures { result ≡ rows.differs own.now other.now (import_of import.now).kind (pairs.bound_to other.now (import_of import.now)) }
{
    match bound_to(other, import) {
        None => false,
        Some(function) => {
            let wanted = imported_type(own, import.kind);
            !are_of_one_type(wanted, other.valid().func_type(function))
        }
    }
}

// The type of an imported function.
fn imported_type<'v>(own: &'v Valid<'_>, kind: ImportKind) -> Option<&'v FuncType>
    ensures { typed result ≡ rows.imported_type own.now kind }
{
    match kind {
        ImportKind::Func(t) => own.module().types.get(t as usize),
        ImportKind::Table(_) | ImportKind::Memory(_) | ImportKind::Global(_) => None,
    }
}

fn are_of_one_type(first: Option<&FuncType>, second: Option<&FuncType>) -> bool
    ensures { result ≡ rows.are_of_one_type (typed first.entry) (typed second.entry) }
{
    match (first, second) {
        (Some(first), Some(second)) => is_same_type(first, second),
        _ => false,
    }
}

fn is_same_type(first: &FuncType, second: &FuncType) -> bool
    ensures { result ≡ same_type (type_of first.now) (type_of second.now) }
{
    are_same_types(first.params.as_slice(), second.params.as_slice())
        && are_same_types(first.results.as_slice(), second.results.as_slice())
}

fn are_same_types(first: &[ValType], second: &[ValType]) -> bool
    ensures { result ≡ same_types first.now second.now }
{
    if first.len() != second.len() {
        return false;
    }
    for k in 0..first.len() {
        if first[k] != second[k] {
            return false;
        }
    }
    true
}
