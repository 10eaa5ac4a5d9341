//! Whether two functions have one type.
ghost use Rattle.std.specs.Prelude.{◌≡◌};
ghost use Rattle.wasm_lang_exec.specs.Reductions.{same_types, same_type};
ghost use Rattle.wasm_tree.specs.Views.{type_of};

use wasm_lang::ValType;
use wasm_tree::FuncType;

fn are_same_types(first: &[ValType], second: &[ValType]) -> bool
    ensures { result ≡ same_types first.now second.now }
{
    if first.len() != second.len() {
        return false;
    }
    for k in 0..first.len() {
        if first[k] != second[k] {
            return false;
        }
    }
    true
}

/// Whether both types take and give the same.
pub fn is_same_type(first: &FuncType, second: &FuncType) -> bool
    ensures { result ≡ same_type (type_of first.now) (type_of second.now) }
{
    are_same_types(first.params.as_slice(), second.params.as_slice())
        && are_same_types(first.results.as_slice(), second.results.as_slice())
}
