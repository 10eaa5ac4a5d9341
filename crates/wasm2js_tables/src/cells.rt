// The cells of a table.

ghost use Rattle.std.specs.Prelude.{◌≡◌, ◌++◌, map, replicate, IfOk};
ghost use Rattle.std.specs.Option.{option_map};
ghost use Rattle.sem_words.specs.Lists.{list_items};
ghost use Rattle.wasm_tree.specs.Views.{type_of};
ghost use Rattle.wasm_lang_valid.specs.Measures.{same_type};
ghost use Rattle.wasm2js_lang.specs.Tables;
ghost use Rattle.wasm2js_tables.specs.Views.{cell_view};

use sem_words::List;
use std::alloc::{AllocError, Global};
use wasm_tree::FuncType;
use wasm_validate::Valid;

/// What a call of an entry finds: a function of the type that it names, nothing, or a function of another type.
#[derive(Clone, Copy, PartialEq, Eq, Debug)]
pub enum Cell {
    Function(u32),
    Empty,
    Other,
}

/// The table of the calls that name one form of type: the least number of a type of the form, and the cells.
#[derive(Drop)]
pub struct MaskedTable {
    pub function_type: u32,
    pub cells: List<Cell>,
}

/// The cells of the table of a type, from the entries; so many more are empty.
pub fn cells_of(
    alloc: Global,
    valid: &Valid<'_>,
    function_type: &FuncType,
    entries: &[Option<u32>],
    more: usize,
) -> Result<List<Cell>, AllocError>
    ensures { IfOk result (λ cells. map cell_view (list_items cells) ≡ map (Tables.cell valid.now (type_of function_type.now)) entries.now ++ replicate more Tables.empty) }
{
    let mut cells = List::new(alloc);
    for entry in entries {
        if cells.push(cell_of(valid, function_type, *entry)).is_err() {
            return Err(AllocError);
        }
    }
    add_empty(&mut cells, more)?;
    Ok(cells)
}

// So many empty cells.
fn add_empty(cells: &mut List<Cell>, more: usize) -> Result<(), AllocError>
    ensures { IfOk result (λ _. map cell_view (list_items cells.new) ≡ map cell_view (list_items cells.old) ++ replicate more Tables.empty) }
{
    for _cell in 0..more {
        if cells.push(Cell::Empty).is_err() {
            return Err(AllocError);
        }
    }
    Ok(())
}

// What a call of this entry finds that names this type.
fn cell_of(valid: &Valid<'_>, function_type: &FuncType, entry: Option<u32>) -> Cell
    ensures { cell_view result ≡ Tables.cell valid.now (type_of function_type.now) entry }
{
    match entry {
        None => Cell::Empty,
        Some(function) => {
            if has_form(function_type, valid.func_type(function)) {
                Cell::Function(function)
            } else {
                Cell::Other
            }
        }
    }
}

// Whether a function of this type, if it has one, is of a form.
fn has_form(function_type: &FuncType, own: Option<&FuncType>) -> bool
    ensures { result ≡ Tables.has_form (type_of function_type.now) (option_map (λ t. type_of t.now) own.entry) }
{
    match own {
        None => false,
        Some(own) => is_same(function_type, own),
    }
}

fn is_same(t: &FuncType, u: &FuncType) -> bool
    ensures { result ≡ same_type (type_of t.now) (type_of u.now) }
{
    t.params.as_slice() == u.params.as_slice() && t.results.as_slice() == u.results.as_slice()
}
