// How many functions, types and globals a module has.

ghost use Rattle.std.specs.Prelude.{◌≡◌, ◌≤◌, ◌^◌, length, map, IfOk};
ghost use Rattle.wasm_tree.specs.Views.{import_of, module_of};
ghost use Rattle.wasm_lang_valid.specs.ModuleRules as items;
ghost use Rattle.wasm_lang_valid.specs.ModuleRules.{function_types, global_types};
ghost use Rattle.wasm_link_bind.specs.Sizes.{AreSizes};

use std::alloc::AllocError;
use wasm_lang::ImportKind;
use wasm_tree::{Import, Module};

/// More of anything than this stands in no memory.
const MOST: usize = 0x4000_0000_0000_0000;

/// How many functions, types and globals a module has, with the imported ones.
#[derive(Clone, Copy, PartialEq, Eq, Debug)]
pub struct Sizes {
    pub functions: usize,
    pub types: usize,
    pub globals: usize,
}

/// The sizes of a module.
pub fn sizes_of(module: &Module<'_>) -> Result<Sizes, AllocError>
    ensures { IfOk result (λ sizes. AreSizes sizes (module_of «module».now)) }
{
    let imports = module.imports.as_slice();
    Ok(Sizes {
        functions: in_memory(imported_functions(imports) + module.functions.len())?,
        types: in_memory(module.types.len())?,
        globals: in_memory(imported_globals(imports) + module.globals.len())?,
    })
}

fn in_memory(count: usize) -> Result<usize, AllocError>
    ensures same { IfOk result (λ same. same ≡ count) }
    ensures few { IfOk result (λ same. same ≤ 2 ^ 62) }
{
    if count <= MOST {
        Ok(count)
    } else {
        Err(AllocError)
    }
}

/// The imported functions.
pub fn imported_functions(imports: &[Import<'_>]) -> usize
    ensures count { result ≡ length (items.imported_functions (map import_of imports.now)) }
    ensures few { result ≤ length imports.now }
{
    let mut count = 0;
    for import in imports {
        if matches!(import.kind, ImportKind::Func(_)) {
            count += 1;
        }
    }
    count
}

/// The imported globals.
pub fn imported_globals(imports: &[Import<'_>]) -> usize
    ensures count { result ≡ length (items.imported_globals (map import_of imports.now)) }
    ensures few { result ≤ length imports.now }
{
    let mut count = 0;
    for import in imports {
        if matches!(import.kind, ImportKind::Global(_)) {
            count += 1;
        }
    }
    count
}
