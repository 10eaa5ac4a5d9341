//! The variables of the module.
ghost use Rattle.std.specs.Prelude.{◌≡◌, ◌++◌, [], List, map, length, IfOk, if◌then◌else◌};
ghost use Rattle.sem_words.specs.Lists.{list_items};
ghost use Rattle.wasm_tree.specs.Views.{global_of, import_of, module_of};
ghost use Rattle.wasm_lang_valid.specs.ModuleRules as rules;
ghost use Rattle.asm_tree.specs.Views.{global_view};
ghost use Rattle.wasm2js_translation.specs.Modules as modules;
ghost use Rattle.wasm2js_sections.specs.Parts.{import_variables, given_of};

use crate::declaring::{add_fixed, add_views};
use crate::globals::add_own;
use crate::importing::{add_functions, add_imported, global_names};
use asm_tree::Global_;
use sem_words::{List, Text};
use std::alloc::{AllocError, Global};
use wasm_tree::{GlobalDef, Import, ImportKind, Module};
use wasm_validate::Valid;

/// The variables of what a valid module is translated to, in the order in which they are declared.
pub fn variables(alloc: Global, valid: &Valid<'_>) -> Result<List<Global_>, AllocError>
    ensures { IfOk result (λ vs. map global_view (list_items vs) ≡ modules.variables_of valid.now) }
{
    let module = valid.module();
    let mut variables = Vec::new(alloc);
    add_all(alloc, &mut variables, module)?;
    Ok(List::from_vec(variables))
}

#[tactic(auto, using(std::proofs::lemmas::List::append_assoc))]
fn add_all(
    alloc: Global,
    variables: &mut Vec<Global_>,
    module: &Module<'_>,
) -> Result<(), AllocError>
    ensures { IfOk result (λ _. let m = module_of «module».now in
        map global_view variables.new.items ≡ map global_view variables.old.items ++ ((if rules.has_memory m then modules.view_variables else []) ++ modules.fixed_variables ++ import_variables 0 m.imports ++ modules.global_variables m)) }
{
    add_heap(alloc, variables, module)?;
    add_fixed(alloc, variables)?;
    add_functions(alloc, variables, module.imports.as_slice())?;
    add_globals(alloc, variables, module)
}

// Adds the views of the heap where there is a memory.
fn add_heap(
    alloc: Global,
    variables: &mut Vec<Global_>,
    module: &Module<'_>,
) -> Result<(), AllocError>
    ensures { IfOk result (λ _. map global_view variables.new.items ≡ map global_view variables.old.items ++ (if rules.has_memory (module_of «module».now) then modules.view_variables else [])) }
{
    if has_memory(module) {
        add_views(alloc, variables)
    } else {
        Ok(())
    }
}

fn add_globals(
    alloc: Global,
    variables: &mut Vec<Global_>,
    module: &Module<'_>,
) -> Result<(), AllocError>
    ensures { IfOk result (λ _. map global_view variables.new.items ≡ map global_view variables.old.items ++ modules.global_variables (module_of «module».now)) }
{
    let names = global_names(alloc, module.imports.as_slice())?;
    add_named(
        alloc,
        variables,
        names.as_slice(),
        module.globals.as_slice(),
    )?;
    Ok(())
}

// Adds the imported globals, which have these names, and then the module's own.
#[tactic(auto, using(std::proofs::lemmas::List::append_assoc))]
fn add_named(
    alloc: Global,
    variables: &mut Vec<Global_>,
    names: &[Text],
    globals: &[GlobalDef],
) -> Result<(), AllocError>
    ensures { IfOk result (λ _. map global_view variables.new.items ≡ map global_view variables.old.items
        ++ (modules.imported_variables 0 (map given_of names.now) ++ modules.own_variables (map given_of names.now) (length names.now) (map global_of globals.now))) }
{
    add_imported(alloc, variables, names)?;
    let first = names.len() as u64;
    add_own(alloc, variables, names, first, globals)
}

fn has_memory(module: &Module<'_>) -> bool
    ensures { result ≡ rules.has_memory (module_of «module».now) }
{
    imports_memory(module.imports.as_slice()) || !module.memories.is_empty()
}

fn imports_memory(imports: &[Import<'_>]) -> bool
    ensures { result ≡ rules.imports_memory (map import_of imports.now) }
{
    for import in imports {
        if matches!(import.kind, ImportKind::Memory(_)) {
            return true;
        }
    }
    false
}
