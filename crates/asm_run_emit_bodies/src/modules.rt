//! The code of functions and of a module.
ghost use Rattle.std.specs.Prelude.{◌≡◌, [], map, reverse, OnOk, IfOk};
ghost use Rattle.sem_words.specs.Lists.{list_items};
ghost use Rattle.asm_tree.specs.Views.{module_view, function_view, local_view, table_view, init_view, texts_view, stmts_view};
ghost use Rattle.asm_lang_valid.specs.Refusal.{function_number};
ghost use Rattle.asm_lang_valid.specs.Typed.{scope_of};
ghost use Rattle.asm2wasm_lang.specs.Tables as entries;
ghost use Rattle.asm_run_code.specs.Bodies.{stmts_code};
ghost use Rattle.asm_run_code.specs.Modules as code;
ghost use Rattle.asm_run_names.specs.Names.{scope_said};
ghost use Rattle.asm_run_emit_bodies.specs.Flats.{flat_view, local_word, init_word, whole};

use crate::jumps::Jumps;
use crate::statements::emit_stmts;
use asm_run_code::Op;
use asm_run_emit_values::Output;
use asm_run_names::{FunctionNames, ModuleNames, small};
use asm_tree::{Function, Init, Local, Module, Table};
use asm_validate_nodes::label_hashes;
use sem_words::{List, Text};
use std::alloc::{AllocError, Global};
use switch_cases::word_of;

/// The code of a function, as it is stored: the last operation first.
#[derive(Drop)]
pub struct Flat {
    pub params: u32,
    /// The first words of the locals.
    pub firsts: List<u32>,
    pub code: List<Op>,
}

/// The code of a module. The names of foreign members stand in the module itself.
#[derive(Drop)]
pub struct Codes {
    pub functions: List<Flat>,
    /// The numbers of the functions in each table.
    pub tables: List<List<u32>>,
}

/// The code of a module. A number of more than 32 bits is want of memory, as the code that has it would take 16 GiB and more.
pub fn codes_of(alloc: Global, module: &Module) -> Result<Codes, AllocError>
    ensures functions { IfOk result (λ codes. map flat_view (list_items codes.functions) ≡ (code.codes_of (module_view «module».now)).functions) }
    ensures tables { IfOk result (λ codes. map (λ t. list_items t) (list_items codes.tables) ≡ (code.codes_of (module_view «module».now)).tables) }
{
    match ModuleNames::new(alloc, module) {
        Ok(names) => codes_by(alloc, &names),
        Err(error) => Err(error),
    }
}

// .. by the names of the module.
fn codes_by(alloc: Global, names: &ModuleNames<'_>) -> Result<Codes, AllocError>
    ensures functions { IfOk result (λ codes. map flat_view (list_items codes.functions) ≡ (code.codes_of (module_view names.now)).functions) }
    ensures tables { IfOk result (λ codes. map (λ t. list_items t) (list_items codes.tables) ≡ (code.codes_of (module_view names.now)).tables) }
{
    let module = names.module();
    let functions = flats_of(alloc, names, module.functions.as_slice())?;
    let tables = tables_of(alloc, names, module.tables.as_slice())?;
    Ok(Codes {
        functions: List::from_vec(functions),
        tables: List::from_vec(tables),
    })
}

// All go through one buffer.
fn flats_of<'a>(
    alloc: Global,
    module: &ModuleNames<'a>,
    functions: &'a [Function],
) -> Result<Vec<Flat>, AllocError>
    ensures { IfOk result (λ flats. map flat_view flats.items ≡ map (code.flat (module_view «module».now)) (map function_view functions.now)) }
{
    let mut output = Output::new(alloc);
    let mut flats = Vec::new(alloc);
    for function in functions {
        output.clear();
        flats.push(code_of(alloc, module, &mut output, function)?)?;
    }
    Ok(flats)
}

fn code_of<'a>(
    alloc: Global,
    module: &ModuleNames<'a>,
    output: &mut Output,
    function: &'a Function,
) -> Result<Flat, AllocError>
    requires { output.old ≡ [] }
    ensures { IfOk result (λ flat. flat_view flat ≡ code.flat (module_view «module».now) (function_view function.now)) }
{
    emit_function(alloc, module, output, function)?;
    let params = small(function.params.as_slice().len())?;
    let firsts = firsts_of(alloc, function.locals.as_slice())?;
    let code = stored_code(alloc, output)?;
    Ok(Flat {
        params,
        firsts: List::from_vec(firsts),
        code: List::from_vec(code),
    })
}

// The whole code, where there is none yet.
fn emit_function<'a>(
    alloc: Global,
    module: &ModuleNames<'a>,
    output: &mut Output,
    function: &'a Function,
) -> Result<(), AllocError>
    requires { output.old ≡ [] }
    ensures { OnOk result (output.new ≡ whole (scope_of (module_view «module».now) (function_view function.now))) }
{
    match FunctionNames::new(alloc, module, function) {
        Ok(names) => emit_body(&names, output),
        Err(error) => Err(error),
    }
}

// .. by the names of the function.
fn emit_body(names: &FunctionNames<'_, '_>, output: &mut Output) -> Result<(), AllocError>
    requires { output.old ≡ [] }
    ensures { OnOk result (output.new ≡ whole (scope_said names.now)) }
{
    let free = names.first_free();
    output.put(Op::Give { from: free })?;
    output.put(Op::Number { to: free, word: 0 })?;
    emit_all(names, output, free)
}

// .. before what ends it.
fn emit_all(names: &FunctionNames<'_, '_>, output: &mut Output, free: u32) -> Result<(), AllocError>
    ensures { OnOk result (output.new ≡ stmts_code (scope_said names.now) [] free (stmts_view (list_items names.now.function.body)) output.old) }
{
    let body = names.function().body.as_slice();
    let mut jumps = Jumps::new(output.alloc(), label_hashes(body));
    emit_stmts(names, output, &mut jumps, free, body)
}

fn stored_code(alloc: Global, output: &Output) -> Result<Vec<Op>, AllocError>
    ensures { IfOk result (λ code. code.items ≡ reverse output.now) }
{
    let stored = output.stored();
    let mut code = Vec::with_capacity(alloc, stored.len())?;
    code.extend_from_slice(stored)?;
    Ok(code)
}

fn firsts_of(alloc: Global, locals: &[Local]) -> Result<Vec<u32>, AllocError>
    ensures { IfOk result (λ firsts. firsts.items ≡ map local_word (map local_view locals.now)) }
{
    let mut firsts = Vec::with_capacity(alloc, locals.len())?;
    for local in locals {
        firsts.push(first_word(&local.init))?;
    }
    Ok(firsts)
}

fn first_word(init: &Init) -> u32
    ensures { result ≡ init_word (init_view init.now) }
{
    match init {
        Init::Number(z) => word_of(*z),
        _ => 0,
    }
}

fn tables_of(
    alloc: Global,
    names: &ModuleNames<'_>,
    tables: &[Table],
) -> Result<Vec<List<u32>>, AllocError>
    ensures { IfOk result (λ all. map (λ t. list_items t) all.items ≡ map (entries.members_of (module_view names.now)) (map table_view tables.now)) }
{
    let mut all = Vec::with_capacity(alloc, tables.len())?;
    for table in tables {
        let members = members_of(alloc, names, table.members.as_slice())?;
        all.push(List::from_vec(members))?;
    }
    Ok(all)
}

fn members_of(
    alloc: Global,
    names: &ModuleNames<'_>,
    members: &[Text],
) -> Result<Vec<u32>, AllocError>
    ensures { IfOk result (λ numbers. numbers.items ≡ map (function_number (module_view names.now).functions) (texts_view members.now)) }
{
    let mut numbers = Vec::with_capacity(alloc, members.len())?;
    for member in members {
        numbers.push(small(names.function_number(member))?)?;
    }
    Ok(numbers)
}
