//! What the code of a module's functions may refer to.
ghost use Rattle.std.specs.Prelude.{◌≡◌, ◌++◌, map, IfOk};
ghost use Rattle.wasm_tree.specs.Views.{import_of, global_of, module_of};
ghost use Rattle.wasm_lang_valid.specs.ModuleRules as rules;
ghost use Rattle.wasm_lang_valid.specs.Profile as profile;
ghost use Rattle.wasm2js_translation.specs.Tables.{cell_count};
ghost use Rattle.wasm2js_functions.specs.Facts.{FactsOf};

use crate::forms::forms_of;
use std::alloc::{AllocError, Global};
use wasm_lang::{GlobalType, ImportKind};
use wasm_profile::{memory_bytes, padded, table_length};
use wasm_tree::{GlobalDef, Import, Module};
use wasm2js_bodies::Sizes;

/// The numbers of the functions' types and how many of the functions are imported, the types of the globals, the imported ones
/// first, and whether there is a table and a memory.
#[derive(Drop)]
pub struct Facts {
    /// For each type the least number of a type of its form.
    pub forms: Vec<u64>,
    pub functions: Vec<u32>,
    pub imported: usize,
    pub globals: Vec<GlobalType>,
    pub table: bool,
    pub memory: bool,
    /// The bytes of the memory, and the cells of each table.
    pub sizes: Sizes,
}

/// The facts of a module.
pub fn facts_of(alloc: Global, module: &Module<'_>) -> Result<Facts, AllocError>
    ensures { IfOk result (λ facts. FactsOf facts (module_of «module».now)) }
{
    let forms = forms_of(alloc, module.types.as_slice())?;
    let imports = module.imports.as_slice();
    let mut functions = imported_functions(alloc, imports)?;
    let imported = functions.len();
    functions.extend_from_slice(module.functions.as_slice())?;
    let mut globals = imported_globals(alloc, imports)?;
    add_globals(&mut globals, module.globals.as_slice())?;
    Ok(Facts {
        forms,
        functions,
        imported,
        globals,
        table: imports_table(imports) || !module.tables.is_empty(),
        memory: imports_memory(imports) || !module.memories.is_empty(),
        sizes: sizes_of(module),
    })
}

fn sizes_of(module: &Module<'_>) -> Sizes
    ensures bytes { result.bytes ≡ profile.memory_bytes (module_of «module».now) }
    ensures cells { result.cells ≡ cell_count (module_of «module».now) }
{
    Sizes {
        bytes: memory_bytes(module),
        cells: padded(table_length(module)),
    }
}

fn imported_functions(alloc: Global, imports: &[Import<'_>]) -> Result<Vec<u32>, AllocError>
    ensures { IfOk result (λ types. types.items ≡ rules.imported_functions (map import_of imports.now)) }
{
    let mut types = Vec::new(alloc);
    for import in imports {
        if let ImportKind::Func(t) = import.kind {
            types.push(t)?;
        }
    }
    Ok(types)
}

fn imported_globals(alloc: Global, imports: &[Import<'_>]) -> Result<Vec<GlobalType>, AllocError>
    ensures { IfOk result (λ types. types.items ≡ rules.imported_globals (map import_of imports.now)) }
{
    let mut types = Vec::new(alloc);
    for import in imports {
        if let ImportKind::Global(kind) = import.kind {
            types.push(kind)?;
        }
    }
    Ok(types)
}

fn add_globals(types: &mut Vec<GlobalType>, globals: &[GlobalDef]) -> Result<(), AllocError>
    ensures { IfOk result (λ _. types.new.items ≡ types.old.items ++ map (λ g. g.kind) (map global_of globals.now)) }
{
    for global in globals {
        types.push(global.kind)?;
    }
    Ok(())
}

fn imports_table(imports: &[Import<'_>]) -> bool
    ensures { result ≡ rules.imports_table (map import_of imports.now) }
{
    for import in imports {
        if matches!(import.kind, ImportKind::Table(_)) {
            return true;
        }
    }
    false
}

fn imports_memory(imports: &[Import<'_>]) -> bool
    ensures { result ≡ rules.imports_memory (map import_of imports.now) }
{
    for import in imports {
        if matches!(import.kind, ImportKind::Memory(_)) {
            return true;
        }
    }
    false
}
