// The limits on tables.

ghost use Rattle.std.specs.Prelude.{◌+◌, ◌<◌, ◌≤◌, ◌^◌, length, map, IfOk};
ghost use Rattle.sem_words.specs.Lists.{list_items};
ghost use Rattle.asm_tree.specs.Views.{table_view};
ghost use Rattle.asm_lang_valid.specs.LimitRows.{tables_marks, most_entries};
ghost use Rattle.asm_validate_limits.specs.declared.tally.Tally.{Tally};
ghost use Rattle.asm_validate_limits.specs.Passes.{Tallied};
ghost use Rattle.asm_validate_limits.specs.Declarations.{table_marks};

use crate::numbers::{MOST_ENTRIES, MOST_MEMBERS};
use crate::tally::{Tally, needs};
use asm_tree::Table;
use asm_validate_names::AsmRefusal;

// A table, before which all have so many members together, as the next node.
fn table_limits(before: usize, table: &Table, node: u64) -> Result<(), AsmRefusal>
    requires { before ≤ most_entries }
    ensures within { IfOk result (λ _. before + length (list_items table.now.members) ≤ most_entries) }
    ensures tallied { (t : Tally) → Tallied (table_marks before node (table_view table.now)) 0 t t result }
{
    let members = table.members.len();
    needs(
        members <= MOST_MEMBERS && members <= MOST_ENTRIES - before,
        node,
    )
}

/// The first limit that is passed in tables.
pub fn tables_limits(tables: &[Table], tally: &mut Tally<'_>) -> Result<(), AsmRefusal>
    requires { tally.old.at + length tables.now < 2 ^ 64 }
    ensures { Tallied (tables_marks 0 tally.old.at (map table_view tables.now)) (length tables.now) tally.old tally.new result }
{
    let mut before = 0;
    for table in tables {
        table_limits(before, table, tally.at)?;
        before += table.members.len();
        tally.at += 1;
    }
    Ok(())
}
