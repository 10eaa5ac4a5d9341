// The names of declarations by their places.
ghost use Rattle.std.specs.Prelude.{◌≡◌, ◌++◌, IfOk, map};
ghost use Rattle.asm_tree.specs.Views.{module_view, table_view, global_view, function_view, param_view, local_view, init_view, texts_view};
ghost use Rattle.asm2wasm_translation.specs.Numbers.{int_variables, local_names, is_variable};
ghost use Rattle.name_slots.specs.Names.{names_in};
ghost use Rattle.asm2wasm_numbers.specs.Named.{IsNamed};
ghost use Rattle.asm2wasm_numbers.specs.Declarations.{variable_names, table_names, param_names};

use asm_tree::{Function, Global_, Init, Local, Param, Table};
use asm_validate::Checked;
use asm2wasm_tables::function_slots;
use name_slots::Slots;
use sem_words::Text;
use std::alloc::{AllocError, Global};

/// The names of a module's declarations.
#[derive(Drop)]
pub struct ModuleNames<'a> {
    pub functions: Slots<'a>,
    /// Declarations that make an int variable.
    pub globals: Slots<'a>,
    /// Foreign members that are imported as ints.
    pub given: Slots<'a>,
    pub tables: Slots<'a>,
}

impl<'a> ModuleNames<'a> {
    /// The names of an accepted module.
    pub fn new(alloc: Global, checked: &'a Checked) -> Result<ModuleNames<'a>, AllocError>
        ensures { IfOk result (λ names. IsNamed (module_view checked.now) names) }
    {
        let module = checked.module();
        let members = checked.foreign_globals();
        let own = module.functions.as_slice();
        let variables = module.globals.as_slice();
        let laid = module.tables.as_slice();
        let functions = function_slots(alloc, own)?;
        let globals = global_slots(alloc, variables)?;
        let given = text_slots(alloc, members)?;
        let tables = table_slots(alloc, laid)?;
        Ok(ModuleNames {
            functions,
            globals,
            given,
            tables,
        })
    }
}

fn table_slots<'a>(alloc: Global, tables: &'a [Table]) -> Result<Slots<'a>, AllocError>
    ensures { IfOk result (λ slots. slots ≡ table_names (map table_view tables.now)) }
{
    let mut names = Vec::new(alloc);
    for table in tables {
        names.push(table.name.as_bytes())?;
    }
    Slots::new(alloc, names)
}

// These names.
fn text_slots<'a>(alloc: Global, texts: &'a [Text]) -> Result<Slots<'a>, AllocError>
    ensures { IfOk result (λ slots. slots ≡ texts_view texts.now) }
{
    let mut names = Vec::new(alloc);
    for text in texts {
        names.push(text.as_bytes())?;
    }
    Slots::new(alloc, names)
}

fn global_slots<'a>(alloc: Global, globals: &'a [Global_]) -> Result<Slots<'a>, AllocError>
    ensures { IfOk result (λ slots. slots ≡ variable_names (int_variables (map global_view globals.now))) }
{
    let mut names = Vec::new(alloc);
    for global in globals {
        if makes_variable(&global.init) {
            names.push(global.name.as_bytes())?;
        }
    }
    Slots::new(alloc, names)
}

fn makes_variable(init: &Init) -> bool
    ensures { result ≡ is_variable (init_view init.now) }
{
    matches!(init, Init::Number(_) | Init::ForeignInt(_, _))
}

/// The parameters of a function, and then its locals.
pub fn local_slots<'a>(alloc: Global, function: &'a Function) -> Result<Slots<'a>, AllocError>
    ensures { IfOk result (λ slots. slots ≡ local_names (function_view function.now)) }
{
    let mut names = Vec::new(alloc);
    push_params(&mut names, function.params.as_slice())?;
    push_locals(&mut names, function.locals.as_slice())?;
    Slots::new(alloc, names)
}

fn push_params<'a>(names: &mut Vec<&'a [u8]>, params: &'a [Param]) -> Result<(), AllocError>
    ensures { IfOk result (λ _. names_in names.new.items ≡ names_in names.old.items ++ param_names (map param_view params.now)) }
{
    for param in params {
        names.push(param.name.as_bytes())?;
    }
    Ok(())
}

fn push_locals<'a>(names: &mut Vec<&'a [u8]>, locals: &'a [Local]) -> Result<(), AllocError>
    ensures { IfOk result (λ _. names_in names.new.items ≡ names_in names.old.items ++ variable_names (map local_view locals.now)) }
{
    for local in locals {
        names.push(local.name.as_bytes())?;
    }
    Ok(())
}
