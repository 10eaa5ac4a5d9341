//! Whole modules with new names.

ghost use Rattle.std.specs.Prelude.{◌≡◌, ◌++◌, IfOk, map};
ghost use Rattle.sem_words.specs.Lists.{list_items};
ghost use Rattle.asm_lang.specs.Modules as plain;
ghost use Rattle.asm_tree.specs.Views.{module_view, exports_view, global_view, function_view, table_view, texts_view};
ghost use Rattle.asm_lang_valid.specs.Scope.{is_name};
ghost use Rattle.asm_short_lang.specs.Sequence.{numbered};
ghost use Rattle.asm_short_lang.specs.Renaming as short;
ghost use Rattle.asm_short_lang.specs.Renaming.{declared_names, given_names, kept_name};
ghost use Rattle.asm_short_tree.specs.Looking.{declared_by, new_names, names_in};
ghost use Rattle.asm_short_modules.specs.LeftModules.{left_view, functions_in, tables_in};
ghost use Rattle.asm_short_modules.specs.NewDeclared.{IsOf, lent, lent_or_nothing, table_with};

use crate::declarations::{
    copied_option, renamed_exports, renamed_globals, renamed_table, renamed_texts,
};
use crate::functions::renamed_function;
use crate::left::Left;
use crate::lists::pushed;
use asm_short_names::{Excluded, first_numbers};
use asm_short_tree::{Names, NewName};
use asm_tree::{Exports, Function, Global_, Module, Table};
use indexmap::IndexSet;
use key_hashes::hashes_of;
use sem_words::{List, Text};
use std::alloc::{AllocError, Global};

// The name of a single export, which it keeps.
fn kept_name(exports: &Exports) -> Option<&[u8]>
    ensures { lent result ≡ kept_name (exports_view exports.now) }
{
    match exports {
        Exports::One(function) => Some(function.as_bytes()),
        Exports::Many(_) => None,
    }
}

fn is_kept(kept: Option<&[u8]>, name: &[u8]) -> bool
    ensures { result ≡ is_name name.now (lent kept.entry) }
{
    match kept {
        None => false,
        Some(kept) => kept == name,
    }
}

fn or_nothing(kept: Option<&[u8]>) -> &[u8]
    ensures { result.now ≡ lent_or_nothing kept.entry }
{
    match kept {
        None => b"",
        Some(name) => name,
    }
}

// Each declaration gets the next number, but the one whose name is kept.
fn given(
    alloc: Global,
    kept: Option<&[u8]>,
    olds: &[&[u8]],
    numbers: &[u64],
) -> Result<Vec<NewName>, AllocError>
    ensures { IfOk result (λ news. new_names (lent_or_nothing kept.entry) news.items ≡ given_names (lent kept.entry) (names_in olds.now) (map numbered numbers.now)) }
{
    let mut news = Vec::with_capacity(alloc, olds.len())?;
    let mut next = 0;
    for old in olds {
        if next == numbers.len() {
            return Ok(news);
        }
        if is_kept(kept, old) {
            news.push(NewName::Kept)?;
        } else {
            news.push(NewName::Numbered(numbers[next]))?;
            next += 1;
        }
    }
    Ok(news)
}

fn push_texts<'a>(names: &mut Vec<&'a [u8]>, texts: &'a [Text]) -> Result<(), AllocError>
    ensures { IfOk result (λ _. names_in names.new.items ≡ names_in names.old.items ++ texts_view texts.now) }
{
    for text in texts {
        names.push(text.as_bytes())?;
    }
    Ok(())
}

fn push_globals<'a>(names: &mut Vec<&'a [u8]>, globals: &'a [Global_]) -> Result<(), AllocError>
    ensures { IfOk result (λ _. names_in names.new.items ≡ names_in names.old.items ++ map (λ (v : plain.Variable). v.name) (map global_view globals.now)) }
{
    for global in globals {
        names.push(global.name.as_bytes())?;
    }
    Ok(())
}

fn push_functions<'a>(
    names: &mut Vec<&'a [u8]>,
    functions: &[&'a Function],
) -> Result<(), AllocError>
    ensures { IfOk result (λ _. names_in names.new.items ≡ names_in names.old.items ++ map (λ (f : plain.Function). f.name) (functions_in functions.now)) }
{
    for function in functions {
        let function: &'a Function = function;
        names.push(function.name.as_bytes())?;
    }
    Ok(())
}

fn push_tables<'a>(names: &mut Vec<&'a [u8]>, tables: &[&'a Table]) -> Result<(), AllocError>
    ensures { IfOk result (λ _. names_in names.new.items ≡ names_in names.old.items ++ map (λ (t : plain.Table). t.name) (tables_in tables.now)) }
{
    for table in tables {
        let table: &'a Table = table;
        names.push(table.name.as_bytes())?;
    }
    Ok(())
}

// The names of declarations, in their order.
fn declared_names<'a>(alloc: Global, left: &Left<'a>) -> Result<Vec<&'a [u8]>, AllocError>
    ensures { IfOk result (λ names. names_in names.items ≡ declared_names (left_view left.now)) }
{
    let mut names = Vec::new(alloc);
    push_texts(&mut names, left.module.params.as_slice())?;
    push_globals(&mut names, left.module.globals.as_slice())?;
    push_functions(&mut names, left.functions.as_slice())?;
    push_tables(&mut names, left.tables.as_slice())?;
    Ok(names)
}

// Their new names.
fn declared<'a>(alloc: Global, left: &Left<'a>) -> Result<Names<'a>, AllocError>
    ensures { IfOk result (λ names. IsOf (left_view left.now) names) }
{
    let kept = kept_name(&left.module.exports);
    let nothing = IndexSet::with_hasher(alloc, hashes_of(&[]));
    let excluded = Excluded {
        numbers: &nothing,
        kept,
    };
    let olds = declared_names(alloc, left)?;
    let numbers = first_numbers(alloc, excluded, olds.len())?;
    let news = given(alloc, kept, olds.as_slice(), numbers.as_slice())?;
    let names = Names::new(alloc, or_nothing(kept), olds.as_slice(), news.as_slice())?;
    Ok(names)
}

fn renamed_functions(
    alloc: Global,
    names: &Names<'_>,
    functions: &[&Function],
) -> Result<List<Function>, AllocError>
    ensures { (m : plain.Module) → IsOf m names.now → IfOk result (λ r. map function_view (list_items r) ≡ map (short.renamed_function m) (functions_in functions.now)) }
{
    let empty = List::with_capacity(alloc, functions.len())?;
    let mut list = empty;
    for function in functions {
        let function: &Function = function;
        let function = renamed_function(alloc, names, function)?;
        list = pushed(list, function)?;
    }
    Ok(list)
}

fn renamed_tables(
    alloc: Global,
    names: &Names<'_>,
    tables: &[&Table],
) -> Result<List<Table>, AllocError>
    ensures { IfOk result (λ r. map table_view (list_items r) ≡ map (table_with (declared_by names.now)) (tables_in tables.now)) }
{
    let empty = List::with_capacity(alloc, tables.len())?;
    let mut list = empty;
    for table in tables {
        let table: &Table = table;
        let table = renamed_table(alloc, names, table)?;
        list = pushed(list, table)?;
    }
    Ok(list)
}

/// What is left of a module, with the names of the short form.
pub fn renamed(alloc: Global, left: &Left<'_>) -> Result<Module, AllocError>
    ensures { IfOk result (λ r. module_view r ≡ short.renamed (left_view left.now)) }
{
    let names = declared(alloc, left)?;
    let name = copied_option(alloc, &left.module.name)?;
    let params = renamed_texts(alloc, &names, left.module.params.as_slice())?;
    let globals = renamed_globals(alloc, &names, left.module.globals.as_slice())?;
    let functions = renamed_functions(alloc, &names, left.functions.as_slice())?;
    let tables = renamed_tables(alloc, &names, left.tables.as_slice())?;
    let exports = renamed_exports(alloc, &names, &left.module.exports)?;
    Ok(Module {
        name,
        params,
        globals,
        functions,
        tables,
        exports,
    })
}
