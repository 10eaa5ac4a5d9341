// What has to hold at a node.

ghost use Rattle.std.specs.Prelude.{◌≡◌, Some, true, is_some, IfOk};
ghost use Rattle.asm_lang_valid.specs.Rows.{first, need};
ghost use Rattle.asm_validate_exprs.specs.Found.{row_of};

use asm_lang_valid::{Met, Rule};
use asm_types::ValueType;

/// The row of a rule at a node, unless this holds.
pub fn needs(holds: bool, rule: Rule, node: u64) -> Result<(), Met>
    ensures row { first (need holds rule node) ≡ row_of result }
    ensures held { IfOk result (λ _. holds ≡ true) }
{
    if holds {
        Ok(())
    } else {
        Err(Met { rule, node })
    }
}

/// A type, or the row of a rule at a node.
pub fn typed(found: Option<ValueType>, rule: Rule, node: u64) -> Result<ValueType, Met>
    ensures row { first (need (is_some found) rule node) ≡ row_of result }
    ensures typed { IfOk result (λ t. found ≡ Some t) }
{
    match found {
        Some(found) => Ok(found),
        None => Err(Met { rule, node }),
    }
}
