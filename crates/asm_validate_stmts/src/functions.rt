// The rows of functions.

ghost use Rattle.std.specs.Prelude.{◌≡◌, ◌+◌, ◌<◌, ◌^◌, None, length, map, IfOk, MatchResult};
ghost use Rattle.asm_tree.specs.Views.{module_view, function_view, local_view};
ghost use Rattle.asm_lang_valid.specs.Rows.{first, function_count, functions_count};
ghost use Rattle.asm_lang_valid.specs.TypeRows as rows;
ghost use Rattle.asm_names.specs.Environments.{IsComplete};
ghost use Rattle.asm_validate_exprs.specs.Found.{row_of};
ghost use Rattle.asm_validate_names.specs.Refusals.{IsRow};

use crate::declarations::literal_fits;
use crate::statements::judge_stmts;
use asm_lang_valid::{Met, Rule};
use asm_names::Environment;
use asm_tree::{Function, Local};
use asm_validate_exprs::{Context, needs};
use asm_validate_labels::{Labels, at_top};
use asm_validate_names::AsmRefusal;
use asm_validate_nodes::label_hashes;
use std::alloc::Global;

#[tactic(auto, using(asm_validate_exprs::proofs::Sequences::sequences))]
fn locals_typed(locals: &[Local], at: &mut u64) -> Result<(), Met>
    requires { at.old + length locals.now < 2 ^ 64 }
    ensures row { first (rows.locals_rows at.old (map local_view locals.now)) ≡ row_of result }
    ensures counted { IfOk result (λ _. at.new ≡ at.old + length locals.now) }
{
    for local in locals {
        needs(literal_fits(&local.init), Rule::LiteralRange, *at)?;
        *at += 1;
    }
    Ok(())
}

/// The first row of a function, which is node `at`.
#[tactic(auto, using(crate::proofs::Order::order))]
fn function_typed<'a>(
    alloc: Global,
    environment: &Environment<'a>,
    function: &'a Function,
    at: &mut u64,
) -> Result<(), AsmRefusal>
    requires complete { IsComplete environment.now }
    requires room { at.old + function_count (function_view function.now) < 2 ^ 64 }
    ensures row { MatchResult result (λ _. first (rows.function_rows (module_view environment.now.home.now) at.old (function_view function.now)) ≡ None) (IsRow (rows.function_rows (module_view environment.now.home.now) at.old (function_view function.now))) }
    ensures counted { IfOk result (λ _. at.new ≡ at.old + function_count (function_view function.now)) }
{
    *at += 1 + function.params.len() as u64;
    locals_typed(function.locals.as_slice(), at)?;
    let context = Context::new(alloc, environment, function)?;
    let mut labels = Labels::new(alloc, label_hashes(function.body.as_slice()));
    judge_stmts(
        &context,
        &mut labels,
        at_top(),
        function.body.as_slice(),
        at,
    )
}

/// .. of functions.
#[tactic(auto, using(crate::proofs::Order::order))]
pub fn functions_typed<'a>(
    alloc: Global,
    environment: &Environment<'a>,
    functions: &'a [Function],
    at: &mut u64,
) -> Result<(), AsmRefusal>
    requires complete { IsComplete environment.now }
    requires room { at.old + functions_count (map function_view functions.now) < 2 ^ 64 }
    ensures row { MatchResult result (λ _. first (rows.functions_rows (module_view environment.now.home.now) at.old (map function_view functions.now)) ≡ None) (IsRow (rows.functions_rows (module_view environment.now.home.now) at.old (map function_view functions.now))) }
    ensures counted { IfOk result (λ _. at.new ≡ at.old + functions_count (map function_view functions.now)) }
{
    for function in functions {
        function_typed(alloc, environment, function, at)?;
    }
    Ok(())
}
