//! The third phase of validation: limits.

ghost use Rattle.std.specs.Prelude.{◌≡◌, ◌+◌, ◌<◌, ◌^◌, [], length, IfOk, MatchResult};
ghost use Rattle.sem_words.specs.Lists.{list_items};
ghost use Rattle.asm_tree.specs.Views.{module_view};
ghost use Rattle.asm_lang_valid.specs.Rows.{functions_count, module_count};
ghost use Rattle.asm_lang_valid.specs.LimitRows.{marks, limit_rows, foreign_calls};
ghost use Rattle.asm_names.specs.Environments.{IsComplete};
ghost use Rattle.asm_validate_names.specs.Refusals.{IsRow};
ghost use Rattle.asm_validate_limits.specs.Called.{EachIsFirst, foreign_list};
ghost use Rattle.asm_validate_limits.specs.Passes.{IsOf, Tallied};

use crate::calls::{ForeignCall, listed};
use crate::functions::functions_limits;
use crate::globals::globals_limits;
use crate::tables::tables_limits;
use crate::tally::Tally;
use asm_names::Environment;
use asm_validate_names::AsmRefusal;
use sem_words::List;
use std::alloc::Global;

/// The calls of foreign functions in order of first use, each name once for each number of arguments with a result
/// and without, where every count is within its limit; and otherwise the first node at which one isn't, in text order
/// with the parts of an expression before the whole.
pub fn check_limits(
    alloc: Global,
    environment: &Environment<'_>,
) -> Result<List<ForeignCall>, AsmRefusal>
    requires complete { IsComplete environment.now }
    requires room { module_count (module_view environment.now.home.now) < 2 ^ 64 }
    ensures exactly { MatchResult result (λ _. limit_rows (module_view environment.now.home.now) ≡ []) (IsRow (limit_rows (module_view environment.now.home.now))) }
    ensures calls { IfOk result (λ calls. foreign_list (module_view environment.now.home.now) calls ≡ foreign_calls (module_view environment.now.home.now)) }
    ensures first { IfOk result (λ calls. EachIsFirst (module_view environment.now.home.now) (list_items calls)) }
{
    let mut tally = Tally::new(alloc, environment.home(), environment.hashes());
    module_limits(alloc, environment, &mut tally)?;
    let calls = listed(alloc, tally.calls.as_slice())?;
    Ok(calls)
}

fn module_limits<'a>(
    alloc: Global,
    environment: &Environment<'a>,
    tally: &mut Tally<'a>,
) -> Result<(), AsmRefusal>
    requires complete { IsComplete environment.now }
    requires of { IsOf (module_view environment.now.home.now) tally.old }
    requires first { tally.old.at ≡ 1 }
    requires room { module_count (module_view environment.now.home.now) < 2 ^ 64 }
    ensures { let home = module_view environment.now.home.now in Tallied (marks home) (length home.globals + (functions_count home.functions + length home.tables)) tally.old tally.new result }
{
    let home = environment.home();
    globals_limits(home, home.globals.as_slice(), tally)?;
    functions_limits(alloc, environment, tally, home.functions.as_slice())?;
    tables_limits(home.tables.as_slice(), tally)
}
