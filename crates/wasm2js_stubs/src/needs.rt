//! Which functions for missing entries the tables need.
ghost use Rattle.std.specs.Prelude.{◌≡◌, ℕ, ◌==◌, ◌||◌, length, map, replicate, slice_get, IfOk};
ghost use Rattle.std.specs.List.{list_any};
ghost use Rattle.std.specs.Option.{option_map};
ghost use Rattle.wasm_tree.specs.Views.{type_of};
ghost use Rattle.wasm2js_translation.specs.Tables;
ghost use Rattle.wasm2js_tables.specs.Views.{cell_view, masked_view};
ghost use Rattle.wasm2js_stubs.specs.Few.{TakeFew};
ghost use Rattle.wasm2js_stubs.specs.Needs.{joined, joined_where, nothing, needs_of, AreNeeds};

use crate::numbers::stub_of;
use std::alloc::{AllocError, Global};
use wasm_tree::FuncType;
use wasm2js_tables::{Cell, MaskedTable};

/// Whether there are places without an entry, and entries of another type.
#[derive(Clone, Copy)]
pub struct Needed {
    pub empty: bool,
    pub other: bool,
}

impl Needed {
    fn nothing() -> Needed
        ensures { result ≡ nothing }
    {
        Needed {
            empty: false,
            other: false,
        }
    }

    // What either needs.
    fn joined(self, more: Needed) -> Needed
        ensures { result ≡ joined self more }
    {
        Needed {
            empty: self.empty || more.empty,
            other: self.other || more.other,
        }
    }
}

/// What these tables need of so many stubs, by their numbers.
pub fn needs_of(
    alloc: Global,
    count: usize,
    types: &[FuncType],
    tables: &[MaskedTable],
) -> Result<Vec<Needed>, AllocError>
    requires { TakeFew (map type_of types.now) }
    ensures { IfOk result (λ needs. AreNeeds count (map type_of types.now) (map masked_view tables.now) needs.items) }
{
    let mut needs = nothing_for(alloc, count)?;
    for table in tables {
        let stub = stub_of(types, table.function_type);
        let more = needs_of_cells(table.cells.as_slice());
        note(&mut needs, stub, more);
    }
    Ok(needs)
}

fn needs_of_cells(cells: &[Cell]) -> Needed
    ensures { result ≡ needs_of (map cell_view cells.now) }
{
    Needed {
        empty: has_empty(cells),
        other: has_other(cells),
    }
}

fn has_empty(cells: &[Cell]) -> bool
    ensures { result ≡ list_any Tables.is_empty (map cell_view cells.now) }
{
    for cell in cells {
        if is_empty(*cell) {
            return true;
        }
    }
    false
}

fn has_other(cells: &[Cell]) -> bool
    ensures { result ≡ list_any Tables.is_other (map cell_view cells.now) }
{
    for cell in cells {
        if is_other(*cell) {
            return true;
        }
    }
    false
}

fn is_empty(cell: Cell) -> bool
    ensures { result ≡ Tables.is_empty (cell_view cell) }
{
    matches!(cell, Cell::Empty)
}

fn is_other(cell: Cell) -> bool
    ensures { result ≡ Tables.is_other (cell_view cell) }
{
    matches!(cell, Cell::Other)
}

// Nothing for so many stubs.
fn nothing_for(alloc: Global, count: usize) -> Result<Vec<Needed>, AllocError>
    ensures { IfOk result (λ needs. needs.items ≡ replicate count nothing) }
{
    let mut needs = Vec::new(alloc);
    for _stub in 0..count {
        needs.push(Needed::nothing())?;
    }
    Ok(needs)
}

// One stub needs more, if it is among these.
fn note(needs: &mut Vec<Needed>, stub: u64, more: Needed)
    ensures as_many { length needs.new.items ≡ length needs.old.items }
    ensures noted { (k : ℕ) → slice_get needs.new.items k ≡ option_map (λ n. joined_where (stub == k) n more) (slice_get needs.old.items k) }
{
    let place = stub as usize;
    if place < needs.len() {
        let old = needs[place];
        needs[place] = old.joined(more);
    }
}
