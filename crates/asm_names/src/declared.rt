// The names of declarations, put into a map. Later ones are put in first, so that an earlier one takes their place.

ghost use Rattle.std.specs.Prelude.{◌≡◌, ℕ, List, Some, IfOk, length, map, if◌then◌else◌};
ghost use Rattle.std.specs.Str.{bytes_eq};
ghost use Rattle.sem_words.specs.Lists.{list_items, text_bytes};
ghost use Rattle.asm_lang.specs.Modules as plain;
ghost use Rattle.asm_tree.specs.Views.{texts_view, module_view, global_view, function_view, table_view};
ghost use Rattle.asm_lang_valid.specs.Scope.{is_in, a_parameter, among_globals, among_functions};
ghost use Rattle.asm_names.specs.Meanings.{meaning_view, seen, tables_over, declared_over};
ghost use Rattle.asm_names.specs.Members.{IsNumbered, EachIsNumbered, first_import, number_in};

use crate::init::init_meaning;
use crate::meaning::Meaning;
use asm_tree::{Function, Global_, Module, Table};
use indexmap::IndexMap;
use key_hashes::{KeyHashes, NameKey};
use sem_words::Text;
use std::alloc::AllocError;

/// The names of a module.
pub fn put_all<'a>(
    names: &mut IndexMap<NameKey<'a>, Meaning<'a>, KeyHashes>,
    home: &'a Module,
    imports: &IndexMap<NameKey<'a>, usize, KeyHashes>,
) -> Result<(), AllocError>
    requires { (n : List ℕ) → number_in imports.now n (length (module_view home.now).globals) ≡ first_import (module_view home.now).globals n }
    ensures known { IfOk result (λ _. (n : List ℕ) → seen names.new n ≡ declared_over (module_view home.now) n (seen names.old n)) }
    ensures numbered { IfOk result (λ _. EachIsNumbered (module_view home.now) names.old → EachIsNumbered (module_view home.now) names.new) }
{
    put_tables(names, home.tables.as_slice())?;
    put_functions(names, home.functions.as_slice())?;
    put_globals(names, home, imports, home.globals.as_slice())?;
    put_params(names, home.params.as_slice())?;
    Ok(())
}

fn put_tables<'a>(
    names: &mut IndexMap<NameKey<'a>, Meaning<'a>, KeyHashes>,
    tables: &'a [Table],
) -> Result<(), AllocError>
    ensures known { IfOk result (λ _. (n : List ℕ) → seen names.new n ≡ tables_over (map table_view tables.now) n (seen names.old n)) }
    ensures numbered { IfOk result (λ _. (m : plain.Module) → EachIsNumbered m names.old → EachIsNumbered m names.new) }
{
    let mut i = tables.len();
    while i > 0 {
        i -= 1;
        let table = &tables[i];
        put(names, &table.name, Meaning::Table(table))?;
    }
    Ok(())
}

fn put_functions<'a>(
    names: &mut IndexMap<NameKey<'a>, Meaning<'a>, KeyHashes>,
    functions: &'a [Function],
) -> Result<(), AllocError>
    ensures known { IfOk result (λ _. (n : List ℕ) → seen names.new n ≡ among_functions (map function_view functions.now) n (seen names.old n)) }
    ensures numbered { IfOk result (λ _. (m : plain.Module) → EachIsNumbered m names.old → EachIsNumbered m names.new) }
{
    let mut i = functions.len();
    while i > 0 {
        i -= 1;
        let function = &functions[i];
        put(names, &function.name, Meaning::Function(function))?;
    }
    Ok(())
}

fn put_globals<'a>(
    names: &mut IndexMap<NameKey<'a>, Meaning<'a>, KeyHashes>,
    home: &'a Module,
    imports: &IndexMap<NameKey<'a>, usize, KeyHashes>,
    globals: &'a [Global_],
) -> Result<(), AllocError>
    requires imports { (n : List ℕ) → number_in imports.now n (length (module_view home.now).globals) ≡ first_import (module_view home.now).globals n }
    requires whole { globals.now ≡ list_items home.now.globals }
    ensures known { IfOk result (λ _. (n : List ℕ) → seen names.new n ≡ among_globals (module_view home.now) (map global_view globals.now) n (seen names.old n)) }
    ensures numbered { IfOk result (λ _. EachIsNumbered (module_view home.now) names.old → EachIsNumbered (module_view home.now) names.new) }
{
    let mut i = globals.len();
    while i > 0 {
        i -= 1;
        let global = &globals[i];
        let meaning = init_meaning(home, imports, &global.init);
        put(names, &global.name, meaning)?;
    }
    Ok(())
}

fn put_params<'a>(
    names: &mut IndexMap<NameKey<'a>, Meaning<'a>, KeyHashes>,
    params: &'a [Text],
) -> Result<(), AllocError>
    ensures known { IfOk result (λ _. (n : List ℕ) → seen names.new n ≡ (if is_in n (texts_view params.now) then a_parameter else seen names.old n)) }
    ensures numbered { IfOk result (λ _. (m : plain.Module) → EachIsNumbered m names.old → EachIsNumbered m names.new) }
{
    let mut i = params.len();
    while i > 0 {
        i -= 1;
        put(names, &params[i], Meaning::Parameter)?;
    }
    Ok(())
}

fn put<'a>(
    names: &mut IndexMap<NameKey<'a>, Meaning<'a>, KeyHashes>,
    name: &'a Text,
    meaning: Meaning<'a>,
) -> Result<(), AllocError>
    ensures known { IfOk result (λ _. (n : List ℕ) → seen names.new n ≡ (if bytes_eq (text_bytes name.now) n then meaning_view (Some meaning.entry) else seen names.old n)) }
    ensures numbered { IfOk result (λ _. (m : plain.Module) → EachIsNumbered m names.old → IsNumbered m (Some meaning.entry) → EachIsNumbered m names.new) }
{
    names.insert(NameKey::of(name.as_bytes()), meaning)?;
    Ok(())
}
