//! The first phase of validation: names.

ghost use Rattle.std.specs.Prelude.{◌≡◌, ◌+◌, ◌++◌, ◌<◌, ◌^◌, [], None, true, length, IfOk, MatchResult};
ghost use Rattle.asm_tree.specs.Views.{module_view, texts_view};
ghost use Rattle.asm_lang_valid.specs.Rows.{first, functions_at, module_count};
ghost use Rattle.asm_lang_valid.specs.NameRows as rows;
ghost use Rattle.asm_names.specs.Environments.{IsComplete};
ghost use Rattle.asm_validate_names.specs.Heading.{heading_rows, variables_rows, later_rows, rest_rows};
ghost use Rattle.asm_validate_names.specs.Refusals.{IsRow};
ghost use Rattle.asm_validate_names.specs.Seen.{names};

use crate::functions::functions_names;
use crate::globals::globals_names;
use crate::imports::Imports;
use crate::refusal::AsmRefusal;
use crate::seen::{add, declared};
use crate::tables::{exports_names, tables_names};
use crate::words::is_forbidden;
use asm_names::Environment;
use asm_tree::Module;
use indexmap::IndexSet;
use key_hashes::KeyHashes;
use sem_words::Text;
use std::alloc::{AllocError, Global};

/// What each name of a module means, where no rule of names is broken, and otherwise the first node that breaks one,
/// in text order with the parts of an expression before the whole. Of two rules that one node breaks the first
/// counts.
pub fn check_names<'a>(alloc: Global, module: &'a Module) -> Result<Environment<'a>, AsmRefusal>
    requires { module_count (module_view «module».now) < 2 ^ 64 }
    ensures of { IfOk result (λ e. e.home.now ≡ «module».now) }
    ensures complete { IfOk result IsComplete }
    ensures exactly { MatchResult result (λ _. rows.name_rows (module_view «module».now) ≡ []) (IsRow (rows.name_rows (module_view «module».now))) }
{
    let environment = Environment::new(alloc, module)?;
    module_names(alloc, &environment)?;
    Ok(environment)
}

fn module_names(alloc: Global, environment: &Environment<'_>) -> Result<(), AsmRefusal>
    requires complete { IsComplete environment.now }
    requires room { module_count (module_view environment.now.home.now) < 2 ^ 64 }
    ensures { MatchResult result (λ _. first (rows.name_rows (module_view environment.now.home.now)) ≡ None) (IsRow (rows.name_rows (module_view environment.now.home.now))) }
{
    let home = environment.home();
    let count = home.functions.len().saturating_add(home.globals.len());
    let mut seen = IndexSet::with_capacity_and_hasher(alloc, count, environment.hashes())?;
    all_names(alloc, environment, &mut seen)
}

// .. where none was seen before.
fn all_names<'a>(
    alloc: Global,
    environment: &Environment<'a>,
    seen: &mut IndexSet<&'a [u8], KeyHashes>,
) -> Result<(), AsmRefusal>
    requires complete { IsComplete environment.now }
    requires none { names seen.old ≡ [] }
    requires room { module_count (module_view environment.now.home.now) < 2 ^ 64 }
    ensures { MatchResult result (λ _. first (rows.name_rows (module_view environment.now.home.now)) ≡ None) (IsRow (rows.name_rows (module_view environment.now.home.now))) }
{
    heading_names(seen, environment.home())?;
    declared_names(alloc, environment, seen)
}

// The names of declarations, after those of the module's parameters.
fn declared_names<'a>(
    alloc: Global,
    environment: &Environment<'a>,
    seen: &mut IndexSet<&'a [u8], KeyHashes>,
) -> Result<(), AsmRefusal>
    requires complete { IsComplete environment.now }
    requires params { names seen.old ≡ (module_view environment.now.home.now).params }
    requires room { module_count (module_view environment.now.home.now) < 2 ^ 64 }
    ensures { MatchResult result (λ _. first (rest_rows (module_view environment.now.home.now)) ≡ None) (IsRow (rest_rows (module_view environment.now.home.now))) }
{
    let mut at = 1;
    variables_names(alloc, environment, seen, &mut at)?;
    later_names(alloc, environment, seen, &mut at)
}

// The names of global variables, after those that were seen. `at` is the number of the first one's node.
fn variables_names<'a>(
    alloc: Global,
    environment: &Environment<'a>,
    seen: &mut IndexSet<&'a [u8], KeyHashes>,
    at: &mut u64,
) -> Result<(), AsmRefusal>
    requires complete { IsComplete environment.now }
    requires room { at.old + length (module_view environment.now.home.now).globals < 2 ^ 64 }
    ensures row { MatchResult result (λ _. first (variables_rows (module_view environment.now.home.now) (names seen.old) at.old) ≡ None) (IsRow (variables_rows (module_view environment.now.home.now) (names seen.old) at.old)) }
    ensures seen { IfOk result (λ _. names seen.new ≡ names seen.old ++ rows.global_texts (module_view environment.now.home.now)) }
    ensures counted { IfOk result (λ _. at.new ≡ at.old + length (module_view environment.now.home.now).globals) }
{
    let mut imports = Imports::new(alloc, environment.hashes());
    let globals = environment.home().globals.as_slice();
    globals_names(environment, seen, &mut imports, globals, at)
}

// The names of functions, tables and exports, after those of global variables.
fn later_names<'a>(
    alloc: Global,
    environment: &Environment<'a>,
    seen: &mut IndexSet<&'a [u8], KeyHashes>,
    at: &mut u64,
) -> Result<(), AsmRefusal>
    requires complete { IsComplete environment.now }
    requires before { names seen.old ≡ (module_view environment.now.home.now).params ++ rows.global_texts (module_view environment.now.home.now) }
    requires place { at.old ≡ functions_at (module_view environment.now.home.now) }
    requires room { module_count (module_view environment.now.home.now) < 2 ^ 64 }
    ensures { MatchResult result (λ _. first (later_rows (module_view environment.now.home.now)) ≡ None) (IsRow (later_rows (module_view environment.now.home.now))) }
{
    let home = environment.home();
    functions_names(alloc, environment, seen, home.functions.as_slice(), at)?;
    tables_names(environment, seen, home.tables.as_slice(), at)?;
    exports_names(alloc, environment, &home.exports, *at)
}

// The names of the module and of its parameters.
fn heading_names<'a>(
    seen: &mut IndexSet<&'a [u8], KeyHashes>,
    home: &'a Module,
) -> Result<(), AsmRefusal>
    requires { names seen.old ≡ [] }
    ensures row { MatchResult result (λ _. first (heading_rows (module_view home.now)) ≡ None) (IsRow (heading_rows (module_view home.now))) }
    ensures seen { IfOk result (λ _. names seen.new ≡ (module_view home.now).params) }
{
    let is_new = add_all(seen, home.params.as_slice())?;
    let forbidden = has_forbidden_name(home);
    declared(is_new, forbidden, 0)?;
    Ok(())
}

// Adds names, and says whether each is new.
fn add_all<'a>(
    seen: &mut IndexSet<&'a [u8], KeyHashes>,
    params: &'a [Text],
) -> Result<bool, AllocError>
    ensures is_new { IfOk result (λ b. b ≡ rows.all_new (names seen.old) (texts_view params.now)) }
    ensures seen { IfOk result (λ b. b ≡ true → names seen.new ≡ names seen.old ++ texts_view params.now) }
{
    for param in params {
        if !add(seen, param)? {
            return Ok(false);
        }
    }
    Ok(true)
}

fn has_forbidden_name(home: &Module) -> bool
    ensures { result ≡ rows.any_forbidden (rows.own_name (module_view home.now).name ++ (module_view home.now).params) }
{
    match &home.name {
        None => any_forbidden(home.params.as_slice()),
        Some(name) => is_forbidden(name.as_bytes()) || any_forbidden(home.params.as_slice()),
    }
}

fn any_forbidden(params: &[Text]) -> bool
    ensures { result ≡ rows.any_forbidden (texts_view params.now) }
{
    for param in params {
        if is_forbidden(param.as_bytes()) {
            return true;
        }
    }
    false
}
