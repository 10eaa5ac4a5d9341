// What the rules of a module look up.

ghost use Rattle.std.specs.Prelude.{◌≡◌, ◌++◌, map, IfOk};
ghost use Rattle.wasm_tree.specs.Views.{import_of, global_of, module_of};
ghost use Rattle.wasm_lang_valid.specs.ModuleRules;
ghost use Rattle.wasm_validate.specs.Facts.{FactsOf};

use std::alloc::{AllocError, Global};
use wasm_lang::{GlobalType, ImportKind};
use wasm_tree::{GlobalDef, Import, Module};

/// The numbers of the functions' types, the types of the globals and how many of those are imported, the
/// imported ones first, and whether a table and a memory is imported, and whether there is one.
#[derive(Drop)]
pub struct Facts {
    pub functions: Vec<u32>,
    pub globals: Vec<GlobalType>,
    pub imported_globals: usize,
    pub imported_table: bool,
    pub imported_memory: bool,
    pub table: bool,
    pub memory: bool,
}

/// The facts of a module.
pub fn facts_of(alloc: Global, module: &Module<'_>) -> Result<Facts, AllocError>
    ensures { IfOk result (λ facts. FactsOf facts (module_of «module».now)) }
{
    let imports = module.imports.as_slice();
    let mut functions = imported_functions(alloc, imports)?;
    functions.extend_from_slice(module.functions.as_slice())?;
    let mut globals = imported_globals(alloc, imports)?;
    let imported = globals.len();
    add_globals(&mut globals, module.globals.as_slice())?;
    let imported_table = imports_table(imports);
    let imported_memory = imports_memory(imports);
    Ok(Facts {
        functions,
        globals,
        imported_globals: imported,
        imported_table,
        imported_memory,
        table: imported_table || !module.tables.is_empty(),
        memory: imported_memory || !module.memories.is_empty(),
    })
}

fn imported_functions(alloc: Global, imports: &[Import<'_>]) -> Result<Vec<u32>, AllocError>
    ensures { IfOk result (λ types. types.items ≡ ModuleRules.imported_functions (map import_of imports.now)) }
{
    let mut types = Vec::new(alloc);
    for import in imports {
        if let ImportKind::Func(t) = import.kind {
            types.push(t)?;
        }
    }
    Ok(types)
}

fn imported_globals(alloc: Global, imports: &[Import<'_>]) -> Result<Vec<GlobalType>, AllocError>
    ensures { IfOk result (λ types. types.items ≡ ModuleRules.imported_globals (map import_of imports.now)) }
{
    let mut types = Vec::new(alloc);
    for import in imports {
        if let ImportKind::Global(kind) = import.kind {
            types.push(kind)?;
        }
    }
    Ok(types)
}

fn add_globals(types: &mut Vec<GlobalType>, globals: &[GlobalDef]) -> Result<(), AllocError>
    ensures { IfOk result (λ _. types.new.items ≡ types.old.items ++ map (λ g. g.kind) (map global_of globals.now)) }
{
    for global in globals {
        types.push(global.kind)?;
    }
    Ok(())
}

fn imports_table(imports: &[Import<'_>]) -> bool
    ensures { result ≡ ModuleRules.imports_table (map import_of imports.now) }
{
    for import in imports {
        if matches!(import.kind, ImportKind::Table(_)) {
            return true;
        }
    }
    false
}

fn imports_memory(imports: &[Import<'_>]) -> bool
    ensures { result ≡ ModuleRules.imports_memory (map import_of imports.now) }
{
    for import in imports {
        if matches!(import.kind, ImportKind::Memory(_)) {
            return true;
        }
    }
    false
}
