// Counts that pass a limit.

ghost use Rattle.std.specs.Prelude.{◌≡◌, ◌≤◌, ◌*◌, ◌^◌, length, map, Option, ℕ, None};
ghost use Rattle.wasm_tree.specs.Views.{import_of, module_of, type_of};
ghost use Rattle.wasm_lang_valid.specs.Measures.{measures_of};
ghost use Rattle.wasm_lang_valid.specs.ModuleRules.{function_types, global_types, imported_functions, imported_globals};
ghost use Rattle.wasm_lang_valid.specs.Profile;
ghost use Rattle.wasm_lang_valid.specs.Runnable;

use crate::table::{padded, table_length};
use wasm_lang::ImportKind;
use wasm_tree::{FuncType, Import, Module};
use wasm_validate::Measures;

/// The first count of a module that passes its limit.
pub fn size_past(module: &Module<'_>, slots: usize, call_types: usize) -> Option<usize>
    requires few { call_types ≤ 2 ^ 32 }
    requires slots { slots ≡ (measures_of (module_of «module».now)).slots }
    requires call_types { call_types ≡ (measures_of (module_of «module».now)).call_types }
    ensures { result ≡ Profile.size_past (module_of «module».now) }
{
    let functions = function_count(module);
    if functions > 20_000 {
        return Some(functions);
    }
    if let Some(params) = params_past(module.types.as_slice()) {
        return Some(params);
    }
    let globals = global_count(module);
    if globals > 10_000 {
        return Some(globals);
    }
    if slots > 20_000 {
        return Some(slots);
    }
    let entries = table_length(module);
    if entries > 65_536 {
        return Some(entries as usize);
    }
    let cells = call_types * padded(entries) as usize;
    if cells > 1_048_576 {
        return Some(cells);
    }
    names_past(module.imports.as_slice())
}

// How many functions there are, with the imported ones.
fn function_count(module: &Module<'_>) -> usize
    ensures { result ≡ length (function_types (module_of «module».now)) }
{
    imported_function_count(module.imports.as_slice()) + module.functions.len()
}

fn imported_function_count(imports: &[Import<'_>]) -> usize
    ensures count { result ≡ length (imported_functions (map import_of imports.now)) }
    ensures few { result ≤ length imports.now }
{
    let mut count = 0;
    for import in imports {
        if matches!(import.kind, ImportKind::Func(_)) {
            count += 1;
        }
    }
    count
}

// How many globals there are, with the imported ones.
fn global_count(module: &Module<'_>) -> usize
    ensures { result ≡ length (global_types (module_of «module».now)) }
{
    imported_global_count(module.imports.as_slice()) + module.globals.len()
}

fn imported_global_count(imports: &[Import<'_>]) -> usize
    ensures count { result ≡ length (imported_globals (map import_of imports.now)) }
    ensures few { result ≤ length imports.now }
{
    let mut count = 0;
    for import in imports {
        if matches!(import.kind, ImportKind::Global(_)) {
            count += 1;
        }
    }
    count
}

// The parameters of the first type that has too many.
fn params_past(types: &[FuncType]) -> Option<usize>
    ensures { (other : Option ℕ) → Profile.params_past (map type_of types.now) other ≡ Runnable.or_else result other }
{
    for t in types {
        let params = t.params.len();
        if params > 1000 {
            return Some(params);
        }
    }
    None
}

// The bytes of the first two names that have too many.
fn names_past(imports: &[Import<'_>]) -> Option<usize>
    ensures { result ≡ Profile.names_past (map import_of imports.now) }
{
    for import in imports {
        let bytes = import.module.as_bytes().len() + import.field.as_bytes().len();
        if has_name(import.kind) && bytes > 49_000 {
            return Some(bytes);
        }
    }
    None
}

fn has_name(kind: ImportKind) -> bool
    ensures { result ≡ Profile.has_name kind }
{
    match kind {
        ImportKind::Func(_) | ImportKind::Global(_) => true,
        ImportKind::Table(_) | ImportKind::Memory(_) => false,
    }
}
