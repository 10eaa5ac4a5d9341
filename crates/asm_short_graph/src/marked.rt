//! Items that are marked.

ghost use Rattle.std.specs.Prelude.{◌≡◌, ◌++◌, IfOk, false, get_or, map};
ghost use Rattle.asm_tree.specs.Views.{function_view, table_view};
ghost use Rattle.asm_short_graph.specs.Picked.{kept_if, picked, functions_in, tables_in};

use asm_tree::{Function, Table};
use std::alloc::{AllocError, Global};

fn is_marked(marks: &[bool], i: usize) -> bool
    ensures { result ≡ get_or marks.now i false }
{
    match marks.get(i) {
        Some(mark) => *mark,
        None => false,
    }
}

fn keep_function<'a>(
    kept: &mut Vec<&'a Function>,
    function: &'a Function,
    mark: bool,
) -> Result<(), AllocError>
    ensures { IfOk result (λ _. functions_in kept.new.items ≡ functions_in kept.old.items ++ kept_if mark (function_view function.now)) }
{
    if !mark {
        return Ok(());
    }
    kept.push(function)?;
    Ok(())
}

fn keep_table<'a>(kept: &mut Vec<&'a Table>, table: &'a Table, mark: bool) -> Result<(), AllocError>
    ensures { IfOk result (λ _. tables_in kept.new.items ≡ tables_in kept.old.items ++ kept_if mark (table_view table.now)) }
{
    if !mark {
        return Ok(());
    }
    kept.push(table)?;
    Ok(())
}

/// Functions that are marked, in their order.
pub fn kept_functions<'a>(
    alloc: Global,
    functions: &'a [Function],
    marks: &[bool],
) -> Result<Vec<&'a Function>, AllocError>
    ensures { IfOk result (λ kept. functions_in kept.items ≡ picked marks.now (map function_view functions.now)) }
{
    let mut kept = Vec::new(alloc);
    for i in 0..functions.len() {
        let mark = is_marked(marks, i);
        let function = &functions[i];
        keep_function(&mut kept, function, mark)?;
    }
    Ok(kept)
}

/// Tables that are marked, in their order.
pub fn kept_tables<'a>(
    alloc: Global,
    tables: &'a [Table],
    marks: &[bool],
) -> Result<Vec<&'a Table>, AllocError>
    ensures { IfOk result (λ kept. tables_in kept.items ≡ picked marks.now (map table_view tables.now)) }
{
    let mut kept = Vec::new(alloc);
    for i in 0..tables.len() {
        let mark = is_marked(marks, i);
        let table = &tables[i];
        keep_table(&mut kept, table, mark)?;
    }
    Ok(kept)
}
