//! The second phase of validation: types.

ghost use Rattle.std.specs.Prelude.{◌≡◌, ◌<◌, ◌^◌, [], MatchResult};
ghost use Rattle.asm_tree.specs.Views.{module_view};
ghost use Rattle.asm_lang_valid.specs.Rows.{module_count};
ghost use Rattle.asm_lang_valid.specs.TypeRows as rows;
ghost use Rattle.asm_names.specs.Environments.{IsComplete};
ghost use Rattle.asm_validate_names.specs.Refusals.{IsRow};

use crate::declarations::globals_typed;
use crate::functions::functions_typed;
use crate::tables::tables_typed;
use asm_names::Environment;
use asm_validate_names::AsmRefusal;
use std::alloc::Global;

/// The first node of a module that breaks a rule of types, in text order with the parts of an expression before the
/// whole. Of two rules that one node breaks the first counts.
pub fn check_types(alloc: Global, environment: &Environment<'_>) -> Result<(), AsmRefusal>
    requires complete { IsComplete environment.now }
    requires room { module_count (module_view environment.now.home.now) < 2 ^ 64 }
    ensures exactly { MatchResult result (λ _. rows.type_rows (module_view environment.now.home.now) ≡ []) (IsRow (rows.type_rows (module_view environment.now.home.now))) }
{
    let home = environment.home();
    let mut at = 1;
    globals_typed(home, home.globals.as_slice(), &mut at)?;
    functions_typed(alloc, environment, home.functions.as_slice(), &mut at)?;
    Ok(tables_typed(environment, home.tables.as_slice(), at)?)
}
