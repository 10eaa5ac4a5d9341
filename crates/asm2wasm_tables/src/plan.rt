// The tables of a module laid end to end.
ghost use Rattle.std.specs.Prelude.{◌≡◌, ◌++◌, List, map, IfOk};
ghost use Rattle.sem_words.specs.Lists.{list_items};
ghost use Rattle.asm_tree.specs.Views.{module_view, function_view, table_view, texts_view};
ghost use Rattle.asm2wasm_lang.specs.Tables.{bases_of, entries_of, bases_from};
ghost use Rattle.asm2wasm_tables.specs.Names.{function_names, numbers_in, entries_in};

use asm_tree::{Function, Table};
use asm_validate::Checked;
use name_slots::Slots;
use sem_words::{List, Text};
use std::alloc::{AllocError, Global};

/// The tables of a module laid end to end, in text order: where the entries of each begin, and the numbers of the functions
/// of all.
#[derive(PartialEq, Eq, Debug, Drop)]
pub struct TablePlan {
    pub bases: List<usize>,
    pub entries: List<usize>,
}

impl TablePlan {
    /// The plan of an accepted module.
    pub fn of(alloc: Global, checked: &Checked) -> Result<TablePlan, AllocError>
        ensures bases { IfOk result (λ plan. list_items plan.bases ≡ bases_of (module_view checked.now)) }
        ensures entries { IfOk result (λ plan. list_items plan.entries ≡ entries_of (module_view checked.now)) }
    {
        let module = checked.module();
        let functions = function_slots(alloc, module.functions.as_slice())?;
        let (bases, entries) = laid(alloc, &functions, module.tables.as_slice())?;
        Ok(TablePlan {
            bases: List::from_vec(bases),
            entries: List::from_vec(entries),
        })
    }
}

/// The functions of a module by name.
pub fn function_slots<'a>(alloc: Global, functions: &'a [Function]) -> Result<Slots<'a>, AllocError>
    ensures { IfOk result (λ slots. slots ≡ function_names (map function_view functions.now)) }
{
    let mut names = Vec::new(alloc);
    for function in functions {
        names.push(function.name.as_bytes())?;
    }
    Slots::new(alloc, names)
}

// Where the entries of each table begin, and the entries.
fn laid(
    alloc: Global,
    functions: &Slots<'_>,
    tables: &[Table],
) -> Result<(Vec<usize>, Vec<usize>), AllocError>
    ensures bases { IfOk result (λ r. r.0.items ≡ bases_from 0 (map table_view tables.now)) }
    ensures entries { IfOk result (λ r. r.1.items ≡ entries_in functions.now (map table_view tables.now)) }
{
    let mut bases = Vec::new(alloc);
    let mut entries = Vec::new(alloc);
    for table in tables {
        bases.push(entries.len())?;
        push_members(&mut entries, functions, table.members.as_slice())?;
    }
    Ok((bases, entries))
}

fn push_members(
    entries: &mut Vec<usize>,
    functions: &Slots<'_>,
    members: &[Text],
) -> Result<(), AllocError>
    ensures { IfOk result (λ _. entries.new.items ≡ entries.old.items ++ numbers_in functions.now (texts_view members.now)) }
{
    for member in members {
        entries.push(functions.slot_or_len(member.as_bytes()))?;
    }
    Ok(())
}
