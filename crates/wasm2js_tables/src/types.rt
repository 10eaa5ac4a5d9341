// A table for each form of type that indirect calls name.

ghost use Rattle.std.specs.Prelude.{◌≡◌, map, not, IfOk, None};
ghost use Rattle.sem_words.specs.Lists.{list_items};
ghost use Rattle.wasm_tree.specs.Views.{type_of};
ghost use Rattle.wasm_lang_valid.specs.Measures.{called_types};
ghost use Rattle.wasm_lang_valid.specs.ModuleRules.{is_table};
ghost use Rattle.wasm_lang_valid.specs.Profile;
ghost use Rattle.wasm_lang_valid.specs.Profile.{offset_from_import, segment_outside};
ghost use Rattle.wasm_lang_valid.specs.Runnable.{first_import};
ghost use Rattle.wasm_validate_bodies.specs.Calls.{holds, IsCalled, IsNoted};
ghost use Rattle.wasm2js_lang.specs.Tables;
ghost use Rattle.wasm2js_tables.specs.Forms.{IsOneMore, IsWanted, table_of};
ghost use Rattle.wasm2js_tables.specs.Views.{masked_view};

use crate::called::called_of;
use crate::cells::{MaskedTable, cells_of};
use crate::entries::entries_of;
use indexmap::IndexSet;
use sem_words::List;
use std::alloc::{AllocError, Global};
use wasm_profile::{padded, table_length};
use wasm_tree::FuncType;
use wasm_validate::Valid;
use wasm_validate_bodies::{Called, form_of};

/// The tables that stand for the one of a module, each under the least number of a type of its form, in the order
/// of these numbers. The table is the module's own, and its elements lie inside it at constant places.
pub fn masked(alloc: Global, valid: &Valid<'_>) -> Result<List<MaskedTable>, AllocError>
    requires own { first_import is_table 0 valid.now.imports ≡ None }
    requires constant { offset_from_import 0 valid.now.elements valid.now.segments ≡ None }
    requires inside { segment_outside (Profile.table_length valid.now) (Profile.memory_bytes valid.now) 0 valid.now.elements valid.now.segments ≡ None }
    ensures { IfOk result (λ tables. map masked_view (list_items tables) ≡ Tables.masked valid.now) }
{
    let module = valid.module();
    let entries = entries_of(alloc, module)?;
    let types = module.types.as_slice();
    let called = called_of(alloc, types, module.bodies.as_slice())?;
    tables_of(alloc, valid, types, &called, entries.as_slice())
}

// The tables of a module with these types, of which indirect calls name some, and these entries.
fn tables_of(
    alloc: Global,
    valid: &Valid<'_>,
    types: &[FuncType],
    called: &Called,
    entries: &[Option<u32>],
) -> Result<List<MaskedTable>, AllocError>
    requires types { map type_of types.now ≡ valid.now.types }
    requires called { IsCalled called.now (map type_of types.now) (called_types valid.now.types valid.now.bodies) }
    requires entries { entries.now ≡ Tables.entries_of valid.now }
    ensures { IfOk result (λ tables. map masked_view (list_items tables) ≡ Tables.masked valid.now) }
{
    let mut tables = List::new(alloc);
    let mut before = IndexSet::new(alloc);
    for (n, t) in types.iter().enumerate() {
        if is_wanted(alloc, called, &mut before, t)? {
            let table = table_at(alloc, valid, n as u32, t, entries)?;
            if tables.push(table).is_err() {
                return Err(AllocError);
            }
        }
    }
    Ok(tables)
}

// Whether calls name a form that no type before has; the type comes to those before.
fn is_wanted(
    alloc: Global,
    called: &Called,
    before: &mut IndexSet<Vec<u8>>,
    t: &FuncType,
) -> Result<bool, AllocError>
    ensures wanted { IfOk result (IsWanted called.now before.old.keys (type_of t.now)) }
    ensures noted { IfOk result (λ _. IsOneMore before.old.keys before.new.keys (type_of t.now)) }
{
    let form = form_of(alloc, t)?;
    let is_called = called.has(&form);
    let is_new = note(before, form)?;
    if is_called { Ok(is_new) } else { Ok(false) }
}

// One more form, which may be there already.
fn note(forms: &mut IndexSet<Vec<u8>>, form: Vec<u8>) -> Result<bool, AllocError>
    ensures is_new { IfOk result (λ is_new. is_new ≡ not (holds forms.old.keys form.items)) }
    ensures noted { IfOk result (λ _. IsNoted form.items forms.old.keys forms.new.keys) }
{
    match forms.insert(form) {
        Ok(is_new) => Ok(is_new),
        Err(_) => Err(AllocError),
    }
}

// The table of the type of this number.
fn table_at(
    alloc: Global,
    valid: &Valid<'_>,
    number: u32,
    t: &FuncType,
    entries: &[Option<u32>],
) -> Result<MaskedTable, AllocError>
    requires { entries.now ≡ Tables.entries_of valid.now }
    ensures { IfOk result (λ table. masked_view table ≡ table_of valid.now number (type_of t.now)) }
{
    let cells = padded(table_length(valid.module()));
    let more = cells.saturating_sub(entries.len() as u64) as usize;
    Ok(MaskedTable {
        function_type: number,
        cells: cells_of(alloc, valid, t, entries, more)?,
    })
}
