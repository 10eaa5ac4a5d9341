// The functions that the script's calls name.
ghost use Rattle.std.specs.Prelude.{◌≡◌, IfOk, map, option_and_then, slice_get};
ghost use Rattle.std.specs.Option.{option_map};
ghost use Rattle.session_lang.specs.Views.{call_of};
ghost use Rattle.asm_tree.specs.Views.{function_view, module_view};
ghost use Rattle.asm_lang_valid.specs.Refusal.{Exported, exported_from};
ghost use Rattle.asm_lang_exec.specs.Session as session;
ghost use Rattle.asm_validate_facts.specs.Numbers.{export_said};
ghost use Rattle.asm2wasm_translation.specs.Numbers.{slot_of};
ghost use Rattle.asm_run.specs.Exports.{EachIsFirst, is_key_at, keys_in};
ghost use Rattle.asm_run_state.specs.Session.{callees_of, function_seen};

use asm_tree::Function;
use asm_validate::Checked;
use asm_validate_facts::ExportOf;
use name_slots::Slots;
use session_lang::CallLine;
use std::alloc::{AllocError, Global};
use std::marker::Model;

/// Exports, of which no two have one key, so that their functions are found by their keys.
#[derive(Drop)]
pub struct Exports<'a> {
    exports: &'a [ExportOf],
    // the place after that of the export that was found last, where a key is looked for first
    next: usize,
    // the keys with their places, once a key wasn't found there
    keys: Option<Slots<'a>>,
}

impl<'a> Model for Exports<'a> {
    ghost use Rattle.std.specs.Prelude.{◌≡◌, List, IfSome, map};
    ghost use Rattle.asm_lang_valid.specs.Refusal.{Exported};
    ghost use Rattle.asm_validate_facts.specs.Numbers.{export_said};
    ghost use Rattle.asm_run.specs.Exports.{EachIsFirst, keys_in};

    ghost Value = { List Exported };

    ghost view = { λ s. map export_said s.exports.now };

    ghost invariant = { λ s. EachIsFirst (map export_said s.exports.now)
        × IfSome s.keys (λ keys. keys ≡ keys_in (map export_said s.exports.now)) };
}

impl<'a> Exports<'a> {
    /// These exports.
    pub fn new(exports: &'a [ExportOf]) -> Exports<'a>
        requires { EachIsFirst (map export_said exports.now) }
        ensures { result ≡ map export_said exports.now }
    {
        Exports {
            exports,
            next: 0,
            keys: None,
        }
    }

    /// The number of the function that is exported under a key.
    pub fn number(&mut self, alloc: Global, key: &[u8]) -> Result<Option<u32>, AllocError>
        ensures number { IfOk result (λ number. number ≡ session.export_number self.old key.now) }
        ensures same { self.new ≡ self.old }
    {
        let Some(place) = self.place(alloc, key)? else {
            return Ok(None);
        };
        self.next = place.saturating_add(1);
        Ok(number_at(self.exports, place))
    }

    // The place of the export of a key.
    fn place(&mut self, alloc: Global, key: &[u8]) -> Result<Option<usize>, AllocError>
        ensures place { IfOk result (λ place. place ≡ slot_of (keys_in self.old) key.now) }
        ensures same { self.new ≡ self.old }
    {
        if is_key_at(self.exports, self.next, key) {
            return Ok(Some(self.next));
        }
        let keys = match self.keys.take() {
            Some(keys) => keys,
            None => keys_of(alloc, self.exports)?,
        };
        let place = keys.slot(key);
        self.keys = Some(keys);
        Ok(place)
    }
}

// Whether the export at a place has this key.
fn is_key_at(exports: &[ExportOf], place: usize, key: &[u8]) -> bool
    ensures { result ≡ is_key_at (map export_said exports.now) place key.now }
{
    match exports.get(place) {
        Some(export) => export.key.as_bytes() == key,
        None => false,
    }
}

// The number of the function of the export at a place.
fn number_at(exports: &[ExportOf], place: usize) -> Option<u32>
    ensures { result ≡ option_map (λ (e : Exported). e.function) (slice_get (map export_said exports.now) place) }
{
    match exports.get(place) {
        Some(export) => Some(export.function),
        None => None,
    }
}

// The keys of exports, each found by a map.
fn keys_of<'a>(alloc: Global, exports: &'a [ExportOf]) -> Result<Slots<'a>, AllocError>
    ensures { IfOk result (λ keys. keys ≡ keys_in (map export_said exports.now)) }
{
    let mut keys = Vec::with_capacity(alloc, exports.len())?;
    for export in exports {
        keys.push(export.key.as_bytes())?;
    }
    Slots::new(alloc, keys)
}

// The exports of an accepted module.
fn exports_of(checked: &Checked) -> &[ExportOf]
    ensures exports { map export_said result.now ≡ exported_from (module_view checked.now) (module_view checked.now).exports }
    ensures first { EachIsFirst (map export_said result.now) }
{
    // that the module is accepted, by which no two keys are equal, is what this call says
    checked.module();
    checked.exports()
}

/// The function of a number, if there is one.
pub fn numbered<'a>(functions: &'a [Function], number: Option<u32>) -> Option<&'a Function>
    ensures { function_seen result ≡ option_and_then (λ i. slice_get (map function_view functions.now) i) number }
{
    match number {
        None => None,
        Some(number) => functions.get(number as usize),
    }
}

/// The numbers of the functions that calls of exports of an accepted module name, in the order of the calls. None for a key under which
/// no function is exported.
pub fn callees(
    alloc: Global,
    checked: &Checked,
    calls: &[CallLine],
) -> Result<Vec<Option<u32>>, AllocError>
    ensures { IfOk result (λ callees. callees.items ≡ callees_of (module_view checked.now) (map call_of calls.now)) }
{
    let mut exports = Exports::new(exports_of(checked));
    let mut callees = Vec::with_capacity(alloc, calls.len())?;
    for call in calls {
        let number = exports.number(alloc, call.name.as_bytes())?;
        callees.push(number)?;
    }
    Ok(callees)
}
