// The names of functions.

ghost use Rattle.std.specs.Prelude.{◌≡◌, ◌+◌, ◌++◌, ◌<◌, ◌^◌, ◌∷◌, [], None, length, map, IfOk, MatchResult};
ghost use Rattle.sem_words.specs.Lists.{text_bytes};
ghost use Rattle.asm_tree.specs.Views.{module_view, function_view, param_view, local_view};
ghost use Rattle.asm_lang_valid.specs.Rows.{first, stmts_count, function_count, functions_count};
ghost use Rattle.asm_lang_valid.specs.NameRows as rows;
ghost use Rattle.asm_lang_valid.specs.NameRows.{param_texts};
ghost use Rattle.asm_names.specs.Environments.{IsComplete};
ghost use Rattle.asm_validate_names.specs.Refusals.{IsRow};
ghost use Rattle.asm_validate_names.specs.Seen.{names, own_rows, own_count, body_rows, inner_rows, inner_count, texts_of};

use crate::refusal::AsmRefusal;
use crate::seen::declare;
use crate::statements::stmts_names;
use asm_names::{Environment, Scope, function_hashes};
use asm_tree::{Function, Local, Param};
use indexmap::IndexSet;
use key_hashes::KeyHashes;
use std::alloc::Global;

#[tactic(auto, using(crate::proofs::Rest::lists))]
fn params_names<'a>(
    seen: &mut IndexSet<&'a [u8], KeyHashes>,
    params: &'a [Param],
    at: &mut u64,
) -> Result<(), AsmRefusal>
    requires { at.old + length params.now < 2 ^ 64 }
    ensures row { MatchResult result (λ _. first (rows.params_names (names seen.old) (map param_view params.now) at.old) ≡ None) (IsRow (rows.params_names (names seen.old) (map param_view params.now) at.old)) }
    ensures seen { IfOk result (λ _. names seen.new ≡ names seen.old ++ param_texts (map param_view params.now)) }
    ensures counted { IfOk result (λ _. at.new ≡ at.old + length params.now) }
{
    for param in params {
        declare(seen, &param.name, *at)?;
        *at += 1;
    }
    Ok(())
}

#[tactic(auto, using(crate::proofs::Rest::lists))]
fn locals_names<'a>(
    seen: &mut IndexSet<&'a [u8], KeyHashes>,
    locals: &'a [Local],
    at: &mut u64,
) -> Result<(), AsmRefusal>
    requires { at.old + length locals.now < 2 ^ 64 }
    ensures row { MatchResult result (λ _. first (rows.locals_names (names seen.old) (map local_view locals.now) at.old) ≡ None) (IsRow (rows.locals_names (names seen.old) (map local_view locals.now) at.old)) }
    ensures counted { IfOk result (λ _. at.new ≡ at.old + length locals.now) }
{
    for local in locals {
        declare(seen, &local.name, *at)?;
        *at += 1;
    }
    Ok(())
}

// The names of parameters and locals.
fn own_names(alloc: Global, function: &Function, at: &mut u64) -> Result<(), AsmRefusal>
    requires { at.old + own_count (function_view function.now) < 2 ^ 64 }
    ensures row { MatchResult result (λ _. first (own_rows (function_view function.now) at.old) ≡ None) (IsRow (own_rows (function_view function.now) at.old)) }
    ensures counted { IfOk result (λ _. at.new ≡ at.old + own_count (function_view function.now)) }
{
    let mut own = IndexSet::with_hasher(alloc, function_hashes(function));
    params_names(&mut own, function.params.as_slice(), at)?;
    locals_names(&mut own, function.locals.as_slice(), at)
}

// The names that the statements of a function use.
fn body_names<'a>(
    alloc: Global,
    environment: &Environment<'a>,
    function: &'a Function,
    at: &mut u64,
) -> Result<(), AsmRefusal>
    requires complete { IsComplete environment.now }
    requires room { at.old + stmts_count (function_view function.now).body < 2 ^ 64 }
    ensures row { MatchResult result (λ _. first (body_rows (module_view environment.now.home.now) (function_view function.now) at.old) ≡ None) (IsRow (body_rows (module_view environment.now.home.now) (function_view function.now) at.old)) }
    ensures counted { IfOk result (λ _. at.new ≡ at.old + stmts_count (function_view function.now).body) }
{
    let scope = Scope::new(alloc, environment, function)?;
    stmts_names(&scope, function.body.as_slice(), at)?;
    Ok(())
}

// The names of parameters, locals and statements.
fn inner_names<'a>(
    alloc: Global,
    environment: &Environment<'a>,
    function: &'a Function,
    at: &mut u64,
) -> Result<(), AsmRefusal>
    requires complete { IsComplete environment.now }
    requires room { at.old + inner_count (function_view function.now) < 2 ^ 64 }
    ensures row { MatchResult result (λ _. first (inner_rows (module_view environment.now.home.now) (function_view function.now) at.old) ≡ None) (IsRow (inner_rows (module_view environment.now.home.now) (function_view function.now) at.old)) }
    ensures counted { IfOk result (λ _. at.new ≡ at.old + inner_count (function_view function.now)) }
{
    own_names(alloc, function, at)?;
    body_names(alloc, environment, function, at)
}

/// The names of a function, after those that were seen. `at` is the number of its node.
fn function_names<'a>(
    alloc: Global,
    environment: &Environment<'a>,
    seen: &mut IndexSet<&'a [u8], KeyHashes>,
    function: &'a Function,
    at: &mut u64,
) -> Result<(), AsmRefusal>
    requires complete { IsComplete environment.now }
    requires room { at.old + function_count (function_view function.now) < 2 ^ 64 }
    ensures row { MatchResult result (λ _. first (rows.function_names (module_view environment.now.home.now) (names seen.old) (function_view function.now) at.old) ≡ None) (IsRow (rows.function_names (module_view environment.now.home.now) (names seen.old) (function_view function.now) at.old)) }
    ensures seen { IfOk result (λ _. names seen.new ≡ names seen.old ++ text_bytes function.now.name ∷ []) }
    ensures counted { IfOk result (λ _. at.new ≡ at.old + function_count (function_view function.now)) }
{
    declare(seen, &function.name, *at)?;
    *at += 1;
    inner_names(alloc, environment, function, at)
}

/// .. of functions.
#[tactic(auto, using(crate::proofs::Rest::lists))]
pub fn functions_names<'a>(
    alloc: Global,
    environment: &Environment<'a>,
    seen: &mut IndexSet<&'a [u8], KeyHashes>,
    functions: &'a [Function],
    at: &mut u64,
) -> Result<(), AsmRefusal>
    requires complete { IsComplete environment.now }
    requires room { at.old + functions_count (map function_view functions.now) < 2 ^ 64 }
    ensures row { MatchResult result (λ _. first (rows.functions_names (module_view environment.now.home.now) (names seen.old) (map function_view functions.now) at.old) ≡ None) (IsRow (rows.functions_names (module_view environment.now.home.now) (names seen.old) (map function_view functions.now) at.old)) }
    ensures seen { IfOk result (λ _. names seen.new ≡ names seen.old ++ texts_of (map function_view functions.now)) }
    ensures counted { IfOk result (λ _. at.new ≡ at.old + functions_count (map function_view functions.now)) }
{
    for function in functions {
        function_names(alloc, environment, seen, function, at)?;
    }
    Ok(())
}
