// Which valid modules can be run.

ghost use Rattle.std.specs.Prelude.{◌≡◌, map, MatchResult, Some, None};
ghost use Rattle.wasm_tree.specs.Views.{import_of, module_of};
ghost use Rattle.wasm_lang_valid.specs.ModuleRules;
ghost use Rattle.wasm_lang_valid.specs.Runnable;
ghost use Rattle.wasm_lang_valid.specs.Runnable.{first_import, not_runnable, imported_pages, pages, most_pages_to_run};

use crate::module::Valid;
use wasm_lang::ImportKind;
use wasm_lang_valid::{Beyond, Outside};
use wasm_tree::{Import, Module};

/// Whether a module can be run: no table and no mutable global is imported, and the memory's minimum is at
/// most 4,096 pages. The first of these that fails is the refusal. It takes no memory.
pub fn runnable(valid: &Valid<'_>) -> Result<(), Outside>
    ensures { MatchResult result (λ _. not_runnable valid.now ≡ None) (λ outside. not_runnable valid.now ≡ Some outside) }
{
    let module = valid.module();
    let imports = module.imports.as_slice();
    let row = row_or(
        Beyond::ImportedTable,
        imported_table(imports),
        row_or(
            Beyond::MutableImport,
            mutable_import(imports),
            row_or(Beyond::MemoryLarge, large_memory(module), None),
        ),
    );
    match row {
        Some(outside) => Err(outside),
        None => Ok(()),
    }
}

fn row_or(row: Beyond, value: Option<usize>, other: Option<Outside>) -> Option<Outside>
    ensures { result ≡ Runnable.row_or row value other }
{
    match value {
        None => other,
        Some(value) => Some(Outside { row, value }),
    }
}

// The number of the first table that is imported.
fn imported_table(imports: &[Import<'_>]) -> Option<usize>
    ensures { result ≡ first_import ModuleRules.is_table 0 (map import_of imports.now) }
{
    for (i, import) in imports.iter().enumerate() {
        if matches!(import.kind, ImportKind::Table(_)) {
            return Some(i);
        }
    }
    None
}

// The number of the first mutable global that is imported.
fn mutable_import(imports: &[Import<'_>]) -> Option<usize>
    ensures { result ≡ first_import Runnable.is_mutable 0 (map import_of imports.now) }
{
    for (i, import) in imports.iter().enumerate() {
        if is_mutable(import.kind) {
            return Some(i);
        }
    }
    None
}

fn is_mutable(kind: ImportKind) -> bool
    ensures { result ≡ Runnable.is_mutable kind }
{
    match kind {
        ImportKind::Global(global) => global.mutable,
        ImportKind::Func(_) | ImportKind::Table(_) | ImportKind::Memory(_) => false,
    }
}

// The pages of a memory that is imported.
fn imported_memory(imports: &[Import<'_>]) -> Option<u32>
    ensures { result ≡ imported_pages (map import_of imports.now) }
{
    for import in imports {
        if let ImportKind::Memory(limits) = import.kind {
            return Some(limits.min);
        }
    }
    None
}

// The pages of the memory.
fn memory_pages(module: &Module<'_>) -> Option<u32>
    ensures { result ≡ pages (module_of «module».now) }
{
    match imported_memory(module.imports.as_slice()) {
        Some(pages) => Some(pages),
        None => match module.memories.get(0) {
            Some(limits) => Some(limits.min),
            None => None,
        },
    }
}

// The pages of a memory that is too large.
fn large_memory(module: &Module<'_>) -> Option<usize>
    ensures { result ≡ Runnable.above most_pages_to_run (pages (module_of «module».now)) }
{
    match memory_pages(module) {
        Some(pages) if pages > 4096 => Some(pages as usize),
        _ => None,
    }
}
