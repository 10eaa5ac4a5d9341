//! Functions that are put into the table.
ghost use Rattle.std.specs.Prelude.{◌≡◌, ◌≤◌, ◌+◌, ◌∷◌, [], true, Some, List, length, map};
ghost use Rattle.session_lang.specs.Observation.{EventPlain};
ghost use Rattle.session_lang.specs.Imports.{Replies};
ghost use Rattle.wasm_tree.specs.Views.{element_of};
ghost use Rattle.wasm_lang_exec.specs.Session as session;
ghost use Rattle.wasm_run_operands.specs.Effects.{store_of};
ghost use Rattle.wasm_run_start.specs.Fitting.{entry_fits};

use crate::values::{is_within, offset_of};
use wasm_run_operands::State;
use wasm_tree::Element;

// Whether the entries of one segment are in the table.
fn entry_fits(state: &State, element: &Element) -> bool
    ensures { result ≡ entry_fits state.now.globals.items (length state.now.table.items) (element_of element.now) }
{
    let place = offset_of(&state.globals, element.offset.as_slice());
    is_within(place, element.functions.len(), state.table.len())
}

/// Whether the entries of all segments are in the table.
pub fn entries_fit(state: &State, elements: &[Element]) -> bool
    ensures { (events : List EventPlain) (replies : Replies) → result ≡ session.entries_fit (store_of state.now events replies) (map element_of elements.now) }
{
    for element in elements {
        if !entry_fits(state, element) {
            return false;
        }
    }
    true
}

// The functions as entries.
fn set_all(entries: &mut [Option<u32>], functions: &[u32])
    requires { length entries.old ≡ length functions.now }
    ensures { entries.new ≡ map Some functions.now }
{
    for (k, entry) in entries.iter_mut().enumerate() {
        *entry = Some(functions[k]);
    }
}

// The functions from a place of the table on.
fn set_from(table: &mut [Option<u32>], place: usize, functions: &[u32])
    requires { place + length functions.now ≤ length table.old }
    ensures { table.new ≡ session.replaced place (map Some functions.now) table.old }
{
    let end = place + functions.len();
    set_all(&mut table[place..end], functions);
}

// Puts the entries of one segment into the table.
fn put_entry(state: &mut State, element: &Element)
    requires { entry_fits state.old.globals.items (length state.old.table.items) (element_of element.now) ≡ true }
    ensures { (events : List EventPlain) (replies : Replies) → store_of state.new events replies ≡ session.with_entries (element_of element.now ∷ []) (store_of state.old events replies) }
{
    let place = offset_of(&state.globals, element.offset.as_slice());
    set_from(
        &mut state.table,
        place as usize,
        element.functions.as_slice(),
    );
}

/// Puts the entries of all segments into the table, where they are in it.
pub fn put_entries(state: &mut State, elements: &[Element])
    requires { (events : List EventPlain) (replies : Replies) → session.entries_fit (store_of state.old events replies) (map element_of elements.now) ≡ true }
    ensures { (events : List EventPlain) (replies : Replies) → store_of state.new events replies ≡ session.with_entries (map element_of elements.now) (store_of state.old events replies) }
{
    for element in elements {
        put_entry(state, element);
    }
}
