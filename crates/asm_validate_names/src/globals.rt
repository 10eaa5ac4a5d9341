// The names of global variables.

ghost use Rattle.std.specs.Prelude.{◌≡◌, ◌+◌, ◌++◌, ◌<◌, ◌^◌, ◌∷◌, [], ℕ, List, ◌||◌, None, not, true, length, map, IfOk, MatchResult};
ghost use Rattle.sem_words.specs.Lists.{text_bytes};
ghost use Rattle.asm_tree.specs.Views.{module_view, init_view, global_view};
ghost use Rattle.asm_lang_valid.specs.Rows.{first};
ghost use Rattle.asm_lang_valid.specs.Scope.{is_in};
ghost use Rattle.asm_lang_valid.specs.NameRows as rows;
ghost use Rattle.asm_names.specs.Environments.{IsComplete};
ghost use Rattle.asm_validate_names.specs.Found.{row_of};
ghost use Rattle.asm_validate_names.specs.Imported.{imports_view, globals_texts};
ghost use Rattle.asm_validate_names.specs.Refusals.{IsRow};
ghost use Rattle.asm_validate_names.specs.Seen.{names};

use crate::imports::{Imports, add_import, clashes, has_forbidden_member};
use crate::refusal::AsmRefusal;
use crate::seen::{add, declared};
use crate::tables::{fit, knows};
use crate::words::is_forbidden;
use asm_lang_valid::Met;
use asm_names::{Environment, is_foreign, is_heap, is_stdlib};
use asm_tree::{Global_, Init, Module};
use indexmap::IndexSet;
use key_hashes::KeyHashes;

fn knows_all(environment: &Environment<'_>, init: &Init) -> bool
    requires { IsComplete environment.now }
    ensures { result ≡ rows.knows_all (module_view environment.now.home.now) (init_view init.now) }
{
    match init {
        Init::Number(_) | Init::Decimal(_) => true,
        Init::ForeignInt(object, _)
        | Init::ForeignDouble(object, _)
        | Init::Member(object, _)
        | Init::Math(object, _) => knows(environment, object),
        Init::View(object, _, heap) => knows(environment, object) && knows(environment, heap),
    }
}

fn has_right_parameters(home: &Module, init: &Init) -> bool
    ensures { result ≡ rows.right_parameters (module_view home.now) (init_view init.now) }
{
    match init {
        Init::Number(_) | Init::Decimal(_) => true,
        Init::ForeignInt(object, _) | Init::ForeignDouble(object, _) => is_foreign(home, object),
        Init::Member(object, _) => is_stdlib(home, object) || is_foreign(home, object),
        Init::Math(object, _) => is_stdlib(home, object),
        Init::View(object, _, heap) => is_stdlib(home, object) && is_heap(home, heap),
    }
}

// The names that a declaration uses.
fn init_names(environment: &Environment<'_>, init: &Init, node: u64) -> Result<(), Met>
    requires { IsComplete environment.now }
    ensures { first (rows.init_rows (module_view environment.now.home.now) (init_view init.now) node) ≡ row_of result }
{
    let known = knows_all(environment, init);
    let right = has_right_parameters(environment.home(), init);
    fit(known, right, node)
}

// Whether a name or what is imported under it was taken before.
fn is_taken(environment: &Environment<'_>, is_new: bool, imports: &Imports<'_>, init: &Init) -> bool
    ensures { result ≡ (not is_new || rows.clashes (module_view environment.now.home.now) (imports_view imports.now) (init_view init.now)) }
{
    !is_new || clashes(environment.home(), imports, init)
}

// Whether a declaration has a forbidden name, or imports a member of one.
fn has_forbidden_name(environment: &Environment<'_>, global: &Global_) -> bool
    ensures { result ≡ (rows.is_forbidden (text_bytes global.now.name) || rows.has_forbidden_member (module_view environment.now.home.now) (init_view global.now.init)) }
{
    is_forbidden(global.name.as_bytes()) || has_forbidden_member(environment.home(), &global.init)
}

// The row of a declaration, whose name is new or not.
fn global_row(
    environment: &Environment<'_>,
    is_new: bool,
    imports: &Imports<'_>,
    global: &Global_,
    node: u64,
) -> Result<(), Met>
    requires { IsComplete environment.now }
    ensures row { (before : List (List ℕ)) → is_new ≡ not (is_in (text_bytes global.now.name) before) → first (rows.global_names (module_view environment.now.home.now) before (imports_view imports.now) (global_view global.now) node) ≡ row_of result }
    ensures is_new { IfOk result (λ _. is_new ≡ true) }
{
    let taken = is_taken(environment, is_new, imports, &global.init);
    let forbidden = has_forbidden_name(environment, global);
    declared(!taken, forbidden, node)?;
    init_names(environment, &global.init, node)
}

// The names of a global variable, after those that were seen.
fn global_names<'a>(
    environment: &Environment<'a>,
    seen: &mut IndexSet<&'a [u8], KeyHashes>,
    imports: &mut Imports<'a>,
    global: &'a Global_,
    node: u64,
) -> Result<(), AsmRefusal>
    requires { IsComplete environment.now }
    ensures row { MatchResult result (λ _. first (rows.global_names (module_view environment.now.home.now) (names seen.old) (imports_view imports.old) (global_view global.now) node) ≡ None) (IsRow (rows.global_names (module_view environment.now.home.now) (names seen.old) (imports_view imports.old) (global_view global.now) node)) }
    ensures seen { IfOk result (λ _. names seen.new ≡ names seen.old ++ text_bytes global.now.name ∷ []) }
    ensures imports { IfOk result (λ _. imports_view imports.new ≡ rows.with_import (module_view environment.now.home.now) (init_view global.now.init) (imports_view imports.old)) }
{
    let is_new = add(seen, &global.name)?;
    global_row(environment, is_new, imports, global, node)?;
    add_import(imports, environment.home(), &global.init)?;
    Ok(())
}

/// The names of global variables, after those that were seen and the imports of them.
pub fn globals_names<'a>(
    environment: &Environment<'a>,
    seen: &mut IndexSet<&'a [u8], KeyHashes>,
    imports: &mut Imports<'a>,
    globals: &'a [Global_],
    at: &mut u64,
) -> Result<(), AsmRefusal>
    requires complete { IsComplete environment.now }
    requires room { at.old + length globals.now < 2 ^ 64 }
    ensures row { MatchResult result (λ _. first (rows.globals_names (module_view environment.now.home.now) (names seen.old) (imports_view imports.old) (map global_view globals.now) at.old) ≡ None) (IsRow (rows.globals_names (module_view environment.now.home.now) (names seen.old) (imports_view imports.old) (map global_view globals.now) at.old)) }
    ensures seen { IfOk result (λ _. names seen.new ≡ names seen.old ++ globals_texts (map global_view globals.now)) }
    ensures counted { IfOk result (λ _. at.new ≡ at.old + length globals.now) }
{
    for global in globals {
        global_names(environment, seen, imports, global, *at)?;
        *at += 1;
    }
    Ok(())
}
