// The limits on functions.

ghost use Rattle.std.specs.Prelude.{◌≡◌, ◌+◌, ◌-◌, ◌<◌, ◌≤◌, ◌^◌, map, MatchResult};
ghost use Rattle.asm_tree.specs.Views.{module_view, function_view};
ghost use Rattle.asm_lang_valid.specs.declared.rule.Rule.TheVariants.{PastLimit};
ghost use Rattle.asm_lang_valid.specs.Rows.{body_at, function_count, functions_count};
ghost use Rattle.asm_lang_valid.specs.LimitRows.{function_marks, functions_marks};
ghost use Rattle.asm_names.specs.Environments.{IsComplete};
ghost use Rattle.asm_validate_limits.specs.Passes.{IsOf, Tallied};
ghost use Rattle.asm_validate_names.specs.declared.refusal.AsmRefusal.TheVariants as refusals;
ghost use Rattle.asm_validate_limits.specs.declared.tally.Tally.{Tally};
ghost use Rattle.asm_validate_limits.specs.Declarations.{heading_marks};

use crate::numbers::{MOST_FUNCTIONS, MOST_LOCALS, MOST_PARAMS};
use crate::statements::stmts_limits;
use crate::tally::{Tally, needs};
use asm_lang_valid::Rule;
use asm_names::{Environment, Scope};
use asm_tree::Function;
use asm_validate_names::AsmRefusal;
use std::alloc::Global;

// So many names, each a node from this one on, before which there are some already.
fn names_limits(before: usize, count: usize, limit: usize, node: u64) -> Result<(), AsmRefusal>
    requires before { before ≤ limit }
    requires room { node + count < 2 ^ 64 }
    ensures { MatchResult result (λ _. before + count ≤ limit) (λ fault. (limit < before + count) × (fault ≡ refusals.Refused PastLimit (node + (limit - before)))) }
{
    if count <= limit - before {
        Ok(())
    } else {
        Err(AsmRefusal::Refused {
            rule: Rule::PastLimit,
            node: node + (limit - before) as u64,
        })
    }
}

// The number of functions with this one, which is a node, and those of its parameters and locals.
fn heading_limits(function: &Function, before: usize, node: u64) -> Result<(), AsmRefusal>
    requires { body_at (function_view function.now) node < 2 ^ 64 }
    ensures { (t : Tally) → Tallied (heading_marks before node (function_view function.now)) 0 t t result }
{
    let params = function.params.len();
    needs(before < MOST_FUNCTIONS, node)?;
    names_limits(0, params, MOST_PARAMS, node + 1)?;
    names_limits(
        params,
        function.locals.len(),
        MOST_LOCALS,
        node + 1 + params as u64,
    )
}

// A function, before which there are so many.
fn function_limits<'a>(
    alloc: Global,
    environment: &Environment<'a>,
    tally: &mut Tally<'a>,
    before: usize,
    function: &'a Function,
) -> Result<(), AsmRefusal>
    requires complete { IsComplete environment.now }
    requires of { IsOf (module_view environment.now.home.now) tally.old }
    requires room { tally.old.at + function_count (function_view function.now) < 2 ^ 64 }
    ensures { Tallied (function_marks (module_view environment.now.home.now) before tally.old.at (function_view function.now)) (function_count (function_view function.now)) tally.old tally.new result }
{
    heading_limits(function, before, tally.at)?;
    tally.at += 1 + (function.params.len() + function.locals.len()) as u64;
    let scope = Scope::new(alloc, environment, function)?;
    stmts_limits(&scope, tally, function.body.as_slice())
}

/// The first limit that is passed in functions.
pub fn functions_limits<'a>(
    alloc: Global,
    environment: &Environment<'a>,
    tally: &mut Tally<'a>,
    functions: &'a [Function],
) -> Result<(), AsmRefusal>
    requires complete { IsComplete environment.now }
    requires of { IsOf (module_view environment.now.home.now) tally.old }
    requires room { tally.old.at + functions_count (map function_view functions.now) < 2 ^ 64 }
    ensures { Tallied (functions_marks (module_view environment.now.home.now) 0 tally.old.at (map function_view functions.now)) (functions_count (map function_view functions.now)) tally.old tally.new result }
{
    for (before, function) in functions.iter().enumerate() {
        function_limits(alloc, environment, tally, before, function)?;
    }
    Ok(())
}
