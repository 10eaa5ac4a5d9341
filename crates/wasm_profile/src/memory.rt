// The length of the memory.

ghost use Rattle.std.specs.Prelude.{◌≡◌, map};
ghost use Rattle.wasm_tree.specs.Views.{import_of, module_of};
ghost use Rattle.wasm_lang_valid.specs.Profile;
ghost use Rattle.wasm_lang_valid.specs.Runnable;
ghost use Rattle.wasm_lang_valid.specs.Runnable.{imported_pages, pages, most_pages_to_run};

use wasm_lang::ImportKind;
use wasm_tree::{Import, Module};

/// How many bytes the memory of a module has: the minimum of its limits, and 0 where there is none.
pub fn memory_bytes(module: &Module<'_>) -> u64
    ensures { result ≡ Profile.memory_bytes (module_of «module».now) }
{
    match memory_pages(module) {
        Some(pages) => u64::from(pages) * 65_536,
        None => 0,
    }
}

/// The pages of a memory that is too large.
pub fn large_memory(module: &Module<'_>) -> Option<usize>
    ensures { result ≡ Runnable.above most_pages_to_run (pages (module_of «module».now)) }
{
    match memory_pages(module) {
        Some(pages) if pages > 4096 => Some(pages as usize),
        _ => None,
    }
}

/// The pages of the memory.
pub fn memory_pages(module: &Module<'_>) -> Option<u32>
    ensures { result ≡ pages (module_of «module».now) }
{
    match imported_memory(module.imports.as_slice()) {
        Some(pages) => Some(pages),
        None => match module.memories.get(0) {
            Some(limits) => Some(limits.min),
            None => None,
        },
    }
}

// The pages of a memory that is imported.
fn imported_memory(imports: &[Import<'_>]) -> Option<u32>
    ensures { result ≡ imported_pages (map import_of imports.now) }
{
    for import in imports {
        if let ImportKind::Memory(limits) = import.kind {
            return Some(limits.min);
        }
    }
    None
}
