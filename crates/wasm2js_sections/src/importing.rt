//! Variables that hold imported functions and imported globals.
ghost use Rattle.std.specs.Prelude.{◌≡◌, ◌+◌, ◌<◌, ◌≤◌, ◌^◌, ◌++◌, ◌∷◌, List, map, IfOk};
ghost use Rattle.wasm_lang.specs.Modules.{Imported};
ghost use Rattle.wasm_tree.specs.Views.{import_of};
ghost use Rattle.wasm_lang_exec.specs.Fits.{global_imports};
ghost use Rattle.asm_tree.specs.Views.{global_view};
ghost use Rattle.wasm2js_translation.specs.Modules as modules;
ghost use Rattle.wasm2js_sections.specs.Parts.{import_variable, import_variables, given_of, by_name};

use crate::declaring::{foreign, given};
use asm_tree::Global_;
use sem_words::Text;
use session_lang::import_name;
use std::alloc::{AllocError, Global};
use wasm_tree::{Import, ImportKind};
use wasm2js_nodes::{Name, Numbered};

/// Adds the imported functions.
pub fn add_functions(
    alloc: Global,
    variables: &mut Vec<Global_>,
    imports: &[Import<'_>],
) -> Result<(), AllocError>
    ensures { IfOk result (λ _. map global_view variables.new.items ≡ map global_view variables.old.items ++ import_variables 0 (map import_of imports.now)) }
{
    let mut number = 0;
    for import in imports {
        number = add_function(alloc, variables, number, import)?;
    }
    Ok(())
}

// Adds the function of an import, if it imports one, under this number, and gives the next number.
fn add_function(
    alloc: Global,
    variables: &mut Vec<Global_>,
    number: u64,
    import: &Import<'_>,
) -> Result<u64, AllocError>
    requires { number < 2 ^ 63 }
    ensures few { IfOk result (λ next. next ≤ number + 1) }
    ensures one { IfOk result (λ next. (rest : List Imported) → map global_view variables.new.items ++ import_variables next rest ≡ map global_view variables.old.items ++ import_variables number (import_of import.now ∷ rest)) }
{
    match import.kind {
        ImportKind::Func(_) => {
            variables.push(imported_function(alloc, number, import)?)?;
            Ok(number + 1)
        }
        ImportKind::Table(_) | ImportKind::Memory(_) | ImportKind::Global(_) => Ok(number),
    }
}

fn imported_function(alloc: Global, number: u64, import: &Import<'_>) -> Result<Global_, AllocError>
    ensures { IfOk result (λ v. global_view v ≡ import_variable number (import_of import.now)) }
{
    let name = import_name(alloc, import.module.as_bytes(), import.field.as_bytes())?;
    foreign(
        alloc,
        Name::Counted(Numbered::Foreign, number),
        name.as_bytes(),
    )
}

/// The names of the imported globals.
pub fn global_names(alloc: Global, imports: &[Import<'_>]) -> Result<Vec<Text>, AllocError>
    ensures { IfOk result (λ names. map given_of names.items ≡ map by_name (global_imports (map import_of imports.now))) }
{
    let mut names = Vec::new(alloc);
    for import in imports {
        add_name(alloc, &mut names, import)?;
    }
    Ok(names)
}

// Adds the name of an import, if it imports a global.
fn add_name(alloc: Global, names: &mut Vec<Text>, import: &Import<'_>) -> Result<(), AllocError>
    ensures { IfOk result (λ _. (rest : List Imported) → map given_of names.new.items ++ map by_name (global_imports rest) ≡ map given_of names.old.items ++ map by_name (global_imports (import_of import.now ∷ rest))) }
{
    match import.kind {
        ImportKind::Global(_) => {
            let name = import_name(alloc, import.module.as_bytes(), import.field.as_bytes())?;
            names.push(name)?;
            Ok(())
        }
        ImportKind::Func(_) | ImportKind::Table(_) | ImportKind::Memory(_) => Ok(()),
    }
}

/// Adds the imported globals of these names.
pub fn add_imported(
    alloc: Global,
    variables: &mut Vec<Global_>,
    names: &[Text],
) -> Result<(), AllocError>
    ensures { IfOk result (λ _. map global_view variables.new.items ≡ map global_view variables.old.items ++ modules.imported_variables 0 (map given_of names.now)) }
{
    for (i, name) in names.iter().enumerate() {
        let number = Name::Counted(Numbered::GlobalLow, i as u64);
        variables.push(given(alloc, number, name.as_bytes())?)?;
    }
    Ok(())
}
