// The names of declarations by their places.
ghost use Rattle.std.specs.Prelude.{◌≡◌, ◌++◌, IfOk, map};
ghost use Rattle.asm_tree.specs.Views.{module_view, table_view, global_view, function_view, param_view, local_view, init_view};
ghost use Rattle.asm2wasm_translation.specs.Numbers.{int_variables, local_names, global_names, is_variable};
ghost use Rattle.name_slots.specs.Names.{names_in};
ghost use Rattle.asm_run_names.specs.Names.{function_names, variable_names, table_names, param_names};

use asm_tree::{Function, Global_, Init, Local, Module, Param, Table};
use name_slots::Slots;
use std::alloc::{AllocError, Global};

/// The functions, int variables and tables of a module, each by its place.
pub struct Places<'a> {
    pub functions: Slots<'a>,
    pub globals: Slots<'a>,
    pub tables: Slots<'a>,
}

/// By hand, so that their end is one call.
impl Drop for Places<'_> {
    fn drop(self) {
        let Places {
            functions: _,
            globals: _,
            tables: _,
        } = self;
    }
}

/// Those of a module.
pub fn places_of<'a>(alloc: Global, module: &'a Module) -> Result<Places<'a>, AllocError>
    ensures functions { IfOk result (λ places. places.functions ≡ function_names (module_view «module».now).functions) }
    ensures globals { IfOk result (λ places. places.globals ≡ global_names (module_view «module».now)) }
    ensures tables { IfOk result (λ places. places.tables ≡ table_names (module_view «module».now).tables) }
{
    let functions = function_slots(alloc, module.functions.as_slice())?;
    let globals = global_slots(alloc, module.globals.as_slice())?;
    let tables = table_slots(alloc, module.tables.as_slice())?;
    Ok(Places {
        functions,
        globals,
        tables,
    })
}

// The functions of a module.
fn function_slots<'a>(alloc: Global, functions: &'a [Function]) -> Result<Slots<'a>, AllocError>
    ensures { IfOk result (λ slots. slots ≡ function_names (map function_view functions.now)) }
{
    let mut names = Vec::new(alloc);
    for function in functions {
        names.push(function.name.as_bytes())?;
    }
    Slots::new(alloc, names)
}

// The tables of a module.
fn table_slots<'a>(alloc: Global, tables: &'a [Table]) -> Result<Slots<'a>, AllocError>
    ensures { IfOk result (λ slots. slots ≡ table_names (map table_view tables.now)) }
{
    let mut names = Vec::new(alloc);
    for table in tables {
        names.push(table.name.as_bytes())?;
    }
    Slots::new(alloc, names)
}

// The int variables of a module.
fn global_slots<'a>(alloc: Global, globals: &'a [Global_]) -> Result<Slots<'a>, AllocError>
    ensures { IfOk result (λ slots. slots ≡ variable_names (int_variables (map global_view globals.now))) }
{
    let mut names = Vec::new(alloc);
    for global in globals {
        if makes_variable(&global.init) {
            names.push(global.name.as_bytes())?;
        }
    }
    Slots::new(alloc, names)
}

fn makes_variable(init: &Init) -> bool
    ensures { result ≡ is_variable (init_view init.now) }
{
    matches!(init, Init::Number(_) | Init::ForeignInt(_, _))
}

/// The parameters of a function, and then its locals.
pub fn local_slots<'a>(alloc: Global, function: &'a Function) -> Result<Slots<'a>, AllocError>
    ensures { IfOk result (λ slots. slots ≡ local_names (function_view function.now)) }
{
    let mut names = Vec::new(alloc);
    push_params(&mut names, function.params.as_slice())?;
    push_locals(&mut names, function.locals.as_slice())?;
    Slots::new(alloc, names)
}

fn push_params<'a>(names: &mut Vec<&'a [u8]>, params: &'a [Param]) -> Result<(), AllocError>
    ensures { IfOk result (λ _. names_in names.new.items ≡ names_in names.old.items ++ param_names (map param_view params.now)) }
{
    for param in params {
        names.push(param.name.as_bytes())?;
    }
    Ok(())
}

fn push_locals<'a>(names: &mut Vec<&'a [u8]>, locals: &'a [Local]) -> Result<(), AllocError>
    ensures { IfOk result (λ _. names_in names.new.items ≡ names_in names.old.items ++ variable_names (map local_view locals.now)) }
{
    for local in locals {
        names.push(local.name.as_bytes())?;
    }
    Ok(())
}
