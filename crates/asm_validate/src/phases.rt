// The three phases.

ghost use Rattle.std.specs.Prelude.{◌≡◌, ◌<◌, ◌^◌, IfOk, MatchResult};
ghost use Rattle.asm_tree.specs.Views.{module_view};
ghost use Rattle.asm_lang_valid.specs.Rows.{module_count};
ghost use Rattle.asm_lang_valid.specs.LimitRows.{foreign_calls};
ghost use Rattle.asm_lang_valid.specs.Refusal.{IsAccepted};
ghost use Rattle.sem_words.specs.Lists.{list_items};
ghost use Rattle.asm_validate_limits.specs.Called.{EachIsFirst, foreign_list};
ghost use Rattle.asm_validate.specs.Refusals.{IsRefused};

use asm_tree::Module;
use asm_validate_limits::{ForeignCall, check_limits};
use asm_validate_names::{AsmRefusal, check_names};
use asm_validate_stmts::check_types;
use sem_words::List;
use std::alloc::Global;

/// The calls of foreign functions of a module that is accepted.
pub fn check_phases(alloc: Global, module: &Module) -> Result<List<ForeignCall>, AsmRefusal>
    requires { module_count (module_view «module».now) < 2 ^ 64 }
    ensures exactly { MatchResult result (λ _. IsAccepted (module_view «module».now)) (IsRefused (module_view «module».now)) }
    ensures calls { IfOk result (λ calls. foreign_list (module_view «module».now) calls ≡ foreign_calls (module_view «module».now)) }
    ensures first { IfOk result (λ calls. EachIsFirst (module_view «module».now) (list_items calls)) }
{
    let environment = check_names(alloc, module)?;
    check_types(alloc, &environment)?;
    let calls = check_limits(alloc, &environment)?;
    Ok(calls)
}
