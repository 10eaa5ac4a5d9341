//! What is reached.

ghost use Rattle.std.specs.Prelude.{◌≡◌, ◌≤◌, IfOk, length, drop, map};
ghost use Rattle.asm_tree.specs.Views.{module_view};
ghost use Rattle.asm_validate_facts.specs.Numbers.{export_said};
ghost use Rattle.asm_lang_valid.specs.Refusal.{Exported, exported_from, IsAccepted};
ghost use Rattle.asm_short_lang.specs.Reached.{IsReached, IsEntered, Keeps};
ghost use Rattle.asm_short_graph.specs.Marks.{AreMarks};
ghost use Rattle.asm_short_graph.specs.Picked.{functions_in, tables_in};

use asm_names::Environment;
use asm_short_graph::{Nodes, kept_functions, kept_tables, links_of, marks_are_exact};
use asm_tree::{Function, Module, Table};
use asm_validate_facts::ExportOf;
use graph_reach::reached;
use std::alloc::{AllocError, Global};

/// What is left of a module's functions and tables, in their order.
#[derive(Drop)]
pub struct Kept<'a> {
    pub functions: Vec<&'a Function>,
    pub tables: Vec<&'a Table>,
}

// The numbers of exported functions.
fn first_of(alloc: Global, exports: &[ExportOf]) -> Result<Vec<usize>, AllocError>
    ensures { IfOk result (λ first. first.items ≡ map (λ (e : Exported). e.function) (map export_said exports.now)) }
{
    let mut first = Vec::new(alloc);
    for export in exports {
        first.push(export.function as usize)?;
    }
    Ok(first)
}

// Which functions, and after them which tables, are reached.
fn marks_of(alloc: Global, home: &Module, exports: &[ExportOf]) -> Result<Vec<bool>, AllocError>
    requires { map export_said exports.now ≡ exported_from (module_view home.now) (module_view home.now).exports }
    ensures { IfOk result (λ marks. AreMarks (module_view home.now) marks.items) }
{
    let environment = Environment::new(alloc, home)?;
    let nodes = Nodes::new(alloc, home)?;
    let links = links_of(alloc, &environment, &nodes)?;
    let first = first_of(alloc, exports)?;
    let marks = reached(alloc, links.as_slice(), first.as_slice())?;
    Ok(marks)
}

// The marks from this one on.
fn from_on(marks: &[bool], count: usize) -> &[bool]
    requires { count ≤ length marks.now }
    ensures { result.now ≡ drop count marks.now }
{
    &marks[count..]
}

/// The functions that are exported, or that a reached function calls by itself or as members of a table; and the tables of which
/// reached functions call members. The exports are those of the module, which is accepted.
pub fn kept_of<'a>(
    alloc: Global,
    home: &'a Module,
    exports: &[ExportOf],
) -> Result<Kept<'a>, AllocError>
    requires accepted { IsAccepted (module_view home.now) }
    requires exports { map export_said exports.now ≡ exported_from (module_view home.now) (module_view home.now).exports }
    ensures functions { IfOk result (λ r. Keeps (IsReached (module_view home.now)) (module_view home.now).functions (functions_in r.functions.items)) }
    ensures tables { IfOk result (λ r. Keeps (IsEntered (module_view home.now)) (module_view home.now).tables (tables_in r.tables.items)) }
{
    marks_are_exact();
    let marks = marks_of(alloc, home, exports)?;
    let count = home.functions.len();
    let of_tables = from_on(marks.as_slice(), count);
    let functions = kept_functions(alloc, home.functions.as_slice(), marks.as_slice())?;
    let tables = kept_tables(alloc, home.tables.as_slice(), of_tables)?;
    Ok(Kept { functions, tables })
}
