// The one memory of a pair.

ghost use Rattle.std.specs.Prelude.{◌≡◌, map};
ghost use Rattle.wasm_tree.specs.Views.{import_of, module_of};
ghost use Rattle.wasm_lang_valid.specs.Runnable as alone;
ghost use Rattle.wasm_link_lang.specs.Refusal as plain;
ghost use Rattle.wasm_link_lang.specs.Session as session;

use wasm_lang::ImportKind;
use wasm_profile::memory_pages;
use wasm_tree::{Import, Module};

/// The minimum of a memory that isn't the import `env` `memory`.
pub fn stray_memory(module: &Module<'_>) -> Option<u32>
    ensures { result ≡ plain.stray_memory (module_of «module».now) }
{
    match imported_stray(module.imports.as_slice()) {
        Some(min) => Some(min),
        None => match module.memories.get(0) {
            Some(limits) => Some(limits.min),
            None => None,
        },
    }
}

fn imported_stray(imports: &[Import<'_>]) -> Option<u32>
    ensures { result ≡ plain.imported_stray (map import_of imports.now) }
{
    for import in imports {
        if let Some(min) = stray_min(import) {
            return Some(min);
        }
    }
    None
}

fn stray_min(import: &Import<'_>) -> Option<u32>
    ensures { result ≡ plain.stray_min (import_of import.now) (import_of import.now).kind }
{
    match import.kind {
        ImportKind::Memory(limits) => {
            if is_the_memory(import) {
                None
            } else {
                Some(limits.min)
            }
        }
        ImportKind::Func(_) | ImportKind::Table(_) | ImportKind::Global(_) => None,
    }
}

fn is_the_memory(import: &Import<'_>) -> bool
    ensures { result ≡ plain.is_the_memory (import_of import.now) }
{
    import.module.as_bytes() == b"env".as_slice() && import.field.as_bytes() == b"memory".as_slice()
}

/// The pages of the memory of a pair: the greater of the minima that are there.
pub fn pages(first: &Module<'_>, second: &Module<'_>) -> Option<u32>
    ensures { result ≡ session.greater (alone.pages (module_of first.now)) (alone.pages (module_of second.now)) }
{
    match (memory_pages(first), memory_pages(second)) {
        (None, pages) => pages,
        (Some(pages), None) => Some(pages),
        (Some(pages), Some(other)) => Some(pages.max(other)),
    }
}

/// The lesser of the maxima that the memories state.
pub fn least_maximum(first: &Module<'_>, second: &Module<'_>) -> Option<u32>
    ensures { result ≡ plain.lesser (plain.maximum (module_of first.now).imports) (plain.maximum (module_of second.now).imports) }
{
    match (
        maximum(first.imports.as_slice()),
        maximum(second.imports.as_slice()),
    ) {
        (None, most) => most,
        (Some(most), None) => Some(most),
        (Some(most), Some(other)) => Some(most.min(other)),
    }
}

fn maximum(imports: &[Import<'_>]) -> Option<u32>
    ensures { result ≡ plain.maximum (map import_of imports.now) }
{
    for import in imports {
        if let Some(most) = stated_max(import.kind) {
            return Some(most);
        }
    }
    None
}

fn stated_max(kind: ImportKind) -> Option<u32>
    ensures { result ≡ plain.stated_max kind }
{
    match kind {
        ImportKind::Memory(limits) => limits.max,
        ImportKind::Func(_) | ImportKind::Table(_) | ImportKind::Global(_) => None,
    }
}

/// The minimum, where a maximum is below it.
pub fn past_maximum(least: Option<u32>, most: Option<u32>) -> Option<u32>
    ensures { result ≡ plain.past_maximum least most }
{
    match (least, most) {
        (Some(least), Some(most)) => { if most < least { Some(least) } else { None } }
        _ => None,
    }
}
