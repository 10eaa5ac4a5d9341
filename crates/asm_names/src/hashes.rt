// Hashers for maps of the names of a module and of a function, seeded by these names.

ghost use Rattle.std.specs.Prelude.{◌≡◌};
ghost use Rattle.std.specs.List.{fold};
ghost use Rattle.key_hashes.specs.Hashes.{hashes};
ghost use Rattle.asm_names.specs.Hashed as named;

use asm_tree::{Export, Exports, Function, Global_, Init, Local, Module, Param, Table};
use key_hashes::{KeyHashes, Seed};
use sem_words::Text;

/// For the names that a module declares, those of the members that it imports, and the keys of its exports.
pub fn module_hashes(home: &Module) -> KeyHashes
    ensures { result ≡ hashes (named.module_seed home.now) }
{
    let mut seed = Seed::new();
    add_texts(&mut seed, home.params.as_slice());
    add_globals(&mut seed, home.globals.as_slice());
    add_functions(&mut seed, home.functions.as_slice());
    add_tables(&mut seed, home.tables.as_slice());
    add_exports(&mut seed, &home.exports);
    seed.hashes()
}

/// For the names of a function's parameters and locals.
pub fn function_hashes(function: &Function) -> KeyHashes
    ensures { result ≡ hashes (named.function_seed function.now) }
{
    let mut seed = Seed::new();
    add_params(&mut seed, function.params.as_slice());
    add_locals(&mut seed, function.locals.as_slice());
    seed.hashes()
}

fn add_texts(seed: &mut Seed, texts: &[Text])
    ensures { seed.new ≡ fold named.with_text seed.old texts.now }
{
    for text in texts {
        seed.add(text.as_bytes());
    }
}

fn add_globals(seed: &mut Seed, globals: &[Global_])
    ensures { seed.new ≡ fold named.with_global seed.old globals.now }
{
    for global in globals {
        seed.add(global.name.as_bytes());
        add_member(seed, &global.init);
    }
}

fn add_member(seed: &mut Seed, init: &Init)
    ensures { seed.new ≡ named.with_member seed.old init.now }
{
    match init {
        Init::ForeignInt(_, field) | Init::ForeignDouble(_, field) | Init::Member(_, field) => {
            seed.add(field.as_bytes());
        }
        Init::Number(_) | Init::Decimal(_) | Init::Math(_, _) | Init::View(_, _, _) => {}
    }
}

fn add_functions(seed: &mut Seed, functions: &[Function])
    ensures { seed.new ≡ fold named.with_function seed.old functions.now }
{
    for function in functions {
        seed.add(function.name.as_bytes());
    }
}

fn add_tables(seed: &mut Seed, tables: &[Table])
    ensures { seed.new ≡ fold named.with_table seed.old tables.now }
{
    for table in tables {
        seed.add(table.name.as_bytes());
    }
}

fn add_exports(seed: &mut Seed, exports: &Exports)
    ensures { seed.new ≡ named.with_exports seed.old exports.now }
{
    match exports {
        Exports::One(_) => {}
        Exports::Many(many) => add_keys(seed, many.as_slice()),
    }
}

fn add_keys(seed: &mut Seed, exports: &[Export])
    ensures { seed.new ≡ fold named.with_export seed.old exports.now }
{
    for export in exports {
        seed.add(export.key.as_bytes());
    }
}

fn add_params(seed: &mut Seed, params: &[Param])
    ensures { seed.new ≡ fold named.with_param seed.old params.now }
{
    for param in params {
        seed.add(param.name.as_bytes());
    }
}

fn add_locals(seed: &mut Seed, locals: &[Local])
    ensures { seed.new ≡ fold named.with_local seed.old locals.now }
{
    for local in locals {
        seed.add(local.name.as_bytes());
    }
}
