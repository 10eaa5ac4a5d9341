// The entries of the table as a session begins.

ghost use Rattle.std.specs.Prelude.{◌≡◌, ◌≤◌, ◌+◌, length, map, IfOk, replicate};
ghost use Rattle.wasm_tree.specs.Views.{instr_of, module_of};
ghost use Rattle.wasm_lang_exec.specs.Session.{replaced};
ghost use Rattle.wasm_lang_valid.specs.Profile;
ghost use Rattle.wasm_lang_valid.specs.Profile.{constant_offset, or_zero};
ghost use Rattle.wasm2js_lang.specs.Tables;
ghost use Rattle.wasm2js_tables.specs.Inside.{AreInside};

use std::alloc::{AllocError, Global};
use wasm_profile::table_length;
use wasm_tree::{Element, Instr, Module};

/// The entries of the table of a module: for each the number of a function, if it has one.
pub fn entries_of(alloc: Global, module: &Module<'_>) -> Result<Vec<Option<u32>>, AllocError>
    requires { AreInside (Profile.table_length (module_of «module».now)) (module_of «module».now).elements }
    ensures { IfOk result (λ entries. entries.items ≡ Tables.entries_of (module_of «module».now)) }
{
    let mut entries = empty_entries(alloc, table_length(module) as usize)?;
    for element in module.elements.as_slice() {
        let offset = offset_of(element.offset.as_slice()) as usize;
        put_functions(&mut entries, offset, element.functions.as_slice());
    }
    Ok(entries)
}

// So many entries without a function.
fn empty_entries(alloc: Global, count: usize) -> Result<Vec<Option<u32>>, AllocError>
    ensures { IfOk result (λ entries. entries.items ≡ replicate count None) }
{
    let mut entries = Vec::new(alloc);
    for _entry in 0..count {
        entries.push(None)?;
    }
    Ok(entries)
}

// The offset where it is a constant, else 0.
fn offset_of(offset: &[Instr]) -> u32
    ensures { result ≡ or_zero (constant_offset (map instr_of offset.now)) }
{
    match offset {
        [Instr::Const32(word), ..] => *word,
        _ => 0,
    }
}

// Puts functions into the entries from a place on.
fn put_functions(entries: &mut Vec<Option<u32>>, at: usize, functions: &[u32])
    requires { at + length functions.now ≤ length entries.old.items }
    ensures put { entries.new.items ≡ replaced at (map Some functions.now) entries.old.items }
    ensures as_many { length entries.new.items ≡ length entries.old.items }
{
    for (i, function) in functions.iter().enumerate() {
        entries[at + i] = Some(*function);
    }
}
