// Imports that no translation has.

ghost use Rattle.std.specs.Prelude.{◌≡◌, ◌&&◌, map, nat_eq};
ghost use Rattle.std.specs.Cmp.Lexicographic.{pointwise};
ghost use Rattle.std.specs.Option.{option_map};
ghost use Rattle.wasm_tree.specs.Views.{import_of, module_of, type_of};
ghost use Rattle.wasm_lang_valid.specs.Measures.{env_name, high_name};
ghost use Rattle.wasm_lang_valid.specs.ModuleRules;
ghost use Rattle.wasm_lang_valid.specs.Profile;
ghost use Rattle.wasm_lang_valid.specs.Runnable;
ghost use Rattle.wasm_lang_valid.specs.Runnable.{first_import};

use wasm_lang::{ImportKind, ValType};
use wasm_tree::{FuncType, Import, Module};

/// The number of the first table that is imported.
pub fn table_import(imports: &[Import<'_>]) -> Option<usize>
    ensures { result ≡ first_import ModuleRules.is_table 0 (map import_of imports.now) }
{
    for (i, import) in imports.iter().enumerate() {
        if matches!(import.kind, ImportKind::Table(_)) {
            return Some(i);
        }
    }
    None
}

/// The number of the first mutable global that is imported.
pub fn mutable_import(imports: &[Import<'_>]) -> Option<usize>
    ensures { result ≡ first_import Runnable.is_mutable 0 (map import_of imports.now) }
{
    for (i, import) in imports.iter().enumerate() {
        if is_mutable(import.kind) {
            return Some(i);
        }
    }
    None
}

fn is_mutable(kind: ImportKind) -> bool
    ensures { result ≡ Runnable.is_mutable kind }
{
    match kind {
        ImportKind::Global(global) => global.mutable,
        ImportKind::Func(_) | ImportKind::Table(_) | ImportKind::Memory(_) => false,
    }
}

/// The number of the first import of a word of 64 bits: a global, or the function `$high` of `env` with such a
/// result.
pub fn wide_import(module: &Module<'_>) -> Option<usize>
    ensures { result ≡ Profile.wide_import (module_of «module».now) 0 (module_of «module».now).imports }
{
    for (i, import) in module.imports.as_slice().iter().enumerate() {
        if is_wide(module, import) {
            return Some(i);
        }
    }
    None
}

fn is_wide(module: &Module<'_>, import: &Import<'_>) -> bool
    ensures { result ≡ Profile.is_wide_kind (module_of «module».now) (import_of import.now) import.now.kind }
{
    match import.kind {
        ImportKind::Global(global) => global.kind == ValType::I64,
        ImportKind::Func(t) => is_high(import) && has_wide_result(module.types.get(t as usize)),
        ImportKind::Table(_) | ImportKind::Memory(_) => false,
    }
}

// Whether the import is the function `$high` of `env`.
fn is_high(import: &Import<'_>) -> bool
    ensures { result ≡ pointwise nat_eq (import_of import.now).module_name env_name && pointwise nat_eq (import_of import.now).name high_name }
{
    import.module.as_bytes() == b"env".as_slice() && import.field.as_bytes() == b"$high".as_slice()
}

fn has_wide_result(function_type: Option<&FuncType>) -> bool
    ensures { result ≡ Profile.has_wide_result (option_map (λ t. type_of t.now) function_type.entry) }
{
    match function_type {
        None => false,
        Some(t) => match t.results.get(0) {
            None => false,
            Some(kind) => *kind == ValType::I64,
        },
    }
}
