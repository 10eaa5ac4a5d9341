// The names of tables and exports.

ghost use Rattle.std.specs.Prelude.{◌≡◌, ◌+◌, ◌++◌, ◌<◌, ◌^◌, ◌∷◌, [], None, length, map, IfOk, MatchResult};
ghost use Rattle.sem_words.specs.Lists.{text_bytes};
ghost use Rattle.asm_tree.specs.Views.{module_view, texts_view, table_view, export_view, exports_view};
ghost use Rattle.asm_lang_valid.specs.Rows.{first, exports_count};
ghost use Rattle.asm_lang_valid.specs.Scope.{module_meaning};
ghost use Rattle.asm_lang_valid.specs.NameRows as rows;
ghost use Rattle.asm_names.specs.Environments.{IsComplete};
ghost use Rattle.asm_names.specs.Meanings.{meaning_view};
ghost use Rattle.asm_validate_names.specs.Members.{fit_rows, table_rows, export_rows};
ghost use Rattle.asm_validate_names.specs.Found.{row_of};
ghost use Rattle.asm_validate_names.specs.Refusals.{IsRow};
ghost use Rattle.asm_validate_names.specs.Seen.{names};

use crate::refusal::AsmRefusal;
use crate::seen::{declare, declare_key};
use crate::uses::needs;
use asm_lang_valid::{Met, Rule};
use asm_names::{Environment, Meaning};
use asm_tree::{Export, Exports, Table};
use indexmap::IndexSet;
use key_hashes::KeyHashes;
use sem_words::Text;
use std::alloc::Global;

/// Whether a name is declared in the module.
#[tactic(auto, using(crate::proofs::Members::declared_is))]
pub fn knows(environment: &Environment<'_>, name: &Text) -> bool
    requires { IsComplete environment.now }
    ensures { result ≡ rows.knows (module_view environment.now.home.now) (text_bytes name.now) }
{
    environment.meaning(name.as_bytes()).is_some()
}

fn is_function(environment: &Environment<'_>, name: &Text) -> bool
    requires { IsComplete environment.now }
    ensures { result ≡ rows.is_function (module_meaning (module_view environment.now.home.now) (text_bytes name.now)) }
{
    names_function(environment.meaning(name.as_bytes()))
}

fn names_function(meaning: Option<Meaning<'_>>) -> bool
    ensures { result ≡ rows.is_function (meaning_view meaning.entry) }
{
    matches!(meaning, Some(Meaning::Function(_)))
}

fn all_known(environment: &Environment<'_>, members: &[Text]) -> bool
    requires { IsComplete environment.now }
    ensures { result ≡ rows.all_known (module_view environment.now.home.now) (texts_view members.now) }
{
    for member in members {
        if !knows(environment, member) {
            return false;
        }
    }
    true
}

fn all_functions(environment: &Environment<'_>, members: &[Text]) -> bool
    requires { IsComplete environment.now }
    ensures { result ≡ rows.all_functions (module_view environment.now.home.now) (texts_view members.now) }
{
    for member in members {
        if !is_function(environment, member) {
            return false;
        }
    }
    true
}

// The members of a table are functions.
fn use_functions(environment: &Environment<'_>, members: &[Text], node: u64) -> Result<(), Met>
    requires { IsComplete environment.now }
    ensures { first (rows.function_uses (module_view environment.now.home.now) (texts_view members.now) node) ≡ row_of result }
{
    let known = all_known(environment, members);
    let functions = all_functions(environment, members);
    fit(known, functions, node)
}

// An export is a function.
#[tactic(auto, using(crate::proofs::Members::one_use))]
fn use_function(environment: &Environment<'_>, name: &Text, node: u64) -> Result<(), Met>
    requires { IsComplete environment.now }
    ensures { first (rows.function_uses (module_view environment.now.home.now) (text_bytes name.now ∷ []) node) ≡ row_of result }
{
    let known = knows(environment, name);
    let function = is_function(environment, name);
    fit(known, function, node)
}

// Names that are used and are declared or not, as functions or not.
pub fn fit(known: bool, fits: bool, node: u64) -> Result<(), Met>
    ensures { first (fit_rows known fits node) ≡ row_of result }
{
    if known {
        needs(fits, Rule::WrongKind, node)
    } else {
        Err(Met {
            rule: Rule::UnknownName,
            node,
        })
    }
}

// The name of a table and those of its members.
fn table_names<'a>(
    environment: &Environment<'a>,
    seen: &mut IndexSet<&'a [u8], KeyHashes>,
    table: &'a Table,
    node: u64,
) -> Result<(), AsmRefusal>
    requires { IsComplete environment.now }
    ensures row { MatchResult result (λ _. first (table_rows (module_view environment.now.home.now) (names seen.old) (table_view table.now) node) ≡ None) (IsRow (table_rows (module_view environment.now.home.now) (names seen.old) (table_view table.now) node)) }
    ensures seen { IfOk result (λ _. names seen.new ≡ names seen.old ++ text_bytes table.now.name ∷ []) }
{
    declare(seen, &table.name, node)?;
    use_functions(environment, table.members.as_slice(), node)?;
    Ok(())
}

/// The names of tables, after those that were seen. `at` is the number of the first one's node.
pub fn tables_names<'a>(
    environment: &Environment<'a>,
    seen: &mut IndexSet<&'a [u8], KeyHashes>,
    tables: &'a [Table],
    at: &mut u64,
) -> Result<(), AsmRefusal>
    requires complete { IsComplete environment.now }
    requires room { at.old + length tables.now < 2 ^ 64 }
    ensures row { MatchResult result (λ _. first (rows.tables_names (module_view environment.now.home.now) (names seen.old) (map table_view tables.now) at.old) ≡ None) (IsRow (rows.tables_names (module_view environment.now.home.now) (names seen.old) (map table_view tables.now) at.old)) }
    ensures counted { IfOk result (λ _. at.new ≡ at.old + length tables.now) }
{
    for table in tables {
        table_names(environment, seen, table, *at)?;
        *at += 1;
    }
    Ok(())
}

// The key of an export and the name of its function.
fn export_names<'a>(
    environment: &Environment<'a>,
    keys: &mut IndexSet<&'a [u8], KeyHashes>,
    export: &'a Export,
    node: u64,
) -> Result<(), AsmRefusal>
    requires { IsComplete environment.now }
    ensures row { MatchResult result (λ _. first (export_rows (module_view environment.now.home.now) (names keys.old) (export_view export.now) node) ≡ None) (IsRow (export_rows (module_view environment.now.home.now) (names keys.old) (export_view export.now) node)) }
    ensures seen { IfOk result (λ _. names keys.new ≡ names keys.old ++ text_bytes export.now.key ∷ []) }
{
    declare_key(keys, &export.key, node)?;
    use_function(environment, &export.function, node)?;
    Ok(())
}

fn keys_names<'a>(
    environment: &Environment<'a>,
    keys: &mut IndexSet<&'a [u8], KeyHashes>,
    exports: &'a [Export],
    at: u64,
) -> Result<(), AsmRefusal>
    requires complete { IsComplete environment.now }
    requires room { at + length exports.now < 2 ^ 64 }
    ensures row { MatchResult result (λ _. first (rows.keys_names (module_view environment.now.home.now) (names keys.old) (map export_view exports.now) at) ≡ None) (IsRow (rows.keys_names (module_view environment.now.home.now) (names keys.old) (map export_view exports.now) at)) }
{
    let mut node = at;
    for export in exports {
        export_names(environment, keys, export, node)?;
        node += 1;
    }
    Ok(())
}

/// The names of exports.
pub fn exports_names<'a>(
    alloc: Global,
    environment: &Environment<'a>,
    exports: &'a Exports,
    at: u64,
) -> Result<(), AsmRefusal>
    requires complete { IsComplete environment.now }
    requires room { at + exports_count (exports_view exports.now) < 2 ^ 64 }
    ensures row { MatchResult result (λ _. first (rows.exports_names (module_view environment.now.home.now) (exports_view exports.now) at) ≡ None) (IsRow (rows.exports_names (module_view environment.now.home.now) (exports_view exports.now) at)) }
{
    match exports {
        Exports::One(function) => {
            use_function(environment, function, at)?;
            Ok(())
        }
        Exports::Many(many) => {
            let hashes = environment.hashes();
            let mut keys = IndexSet::with_capacity_and_hasher(alloc, many.len(), hashes)?;
            keys_names(environment, &mut keys, many.as_slice(), at)
        }
    }
}
