// The functions that the script's calls name.

ghost use Rattle.std.specs.Prelude.{◌≡◌, ℕ, List, Some, IfOk, IfSome, map, if◌then◌else◌};
ghost use Rattle.std.specs.Str.{bytes_eq};
ghost use Rattle.session_lang.specs.Views.{call_of};
ghost use Rattle.script_lines.specs.GlobalLines.{found};
ghost use Rattle.wasm_tree.specs.Views.{bytes_of, export_of};
ghost use Rattle.wasm_lang_exec.specs.Session as session;
ghost use Rattle.wasm_run.specs.Exports.{EachIsFirst, callees_of, is_named_at, place_named};

use indexmap::IndexMap;
use key_hashes::{KeyHashes, Seed};
use session_lang::CallLine;
use std::alloc::{AllocError, Global};
use std::marker::Model;
use wasm_lang::ExportKind;
use wasm_tree::WasmExport;
use wasm_validate::Valid;

// For up to so many calls the exports are looked through: to compare a name costs a tenth of what it costs to put it
// into a map, or less, and takes no memory.
const FEW: usize = 8;

/// Exports, of which no two have one name, so that their functions are found by their names.
#[derive(Drop)]
pub struct Exports<'a> {
    exports: &'a [WasmExport<'a>],
    // how many calls look up a name
    calls: usize,
    // the place after that of the export that was found last, where a name is looked for first
    next: usize,
    // the place of each name, once it was wanted; no map where there are few calls
    places: Option<IndexMap<&'a [u8], usize, KeyHashes>>,
}

impl<'a> Model for Exports<'a> {
    ghost use Rattle.std.specs.Prelude.{◌≡◌, ℕ, List, IfSome, map};
    ghost use Rattle.wasm_lang.specs.Modules.{Exported};
    ghost use Rattle.wasm_tree.specs.Views.{export_of};
    ghost use Rattle.script_lines.specs.GlobalLines.{found};
    ghost use Rattle.wasm_run.specs.Exports.{EachIsFirst, place_named};

    ghost Value = { List Exported };

    ghost view = { λ s. map export_of s.exports.now };

    ghost invariant = { λ s. EachIsFirst (map export_of s.exports.now)
        × IfSome s.places (λ places. (n : List ℕ) → found places n ≡ place_named (map export_of s.exports.now) n) };
}

impl<'a> Exports<'a> {
    /// These exports, in which so many calls look up a name.
    pub fn new(exports: &'a [WasmExport<'a>], calls: usize) -> Exports<'a>
        requires { EachIsFirst (map export_of exports.now) }
        ensures { result ≡ map export_of exports.now }
    {
        Exports {
            exports,
            calls,
            next: 0,
            places: None,
        }
    }

    /// The function that is exported under a name.
    #[tactic(auto, using(crate::proofs::ExportNames::function_nowhere))]
    pub fn function_named(&mut self, alloc: Global, name: &[u8]) -> Result<Option<u32>, AllocError>
        ensures function { IfOk result (λ function. function ≡ session.function_named self.old name.now) }
        ensures same { self.new ≡ self.old }
    {
        let Some(place) = self.place(alloc, name)? else {
            return Ok(None);
        };
        self.next = place.saturating_add(1);
        Ok(function_at(self.exports, place, name))
    }

    // The place of the export of a name.
    fn place(&mut self, alloc: Global, name: &[u8]) -> Result<Option<usize>, AllocError>
        ensures place { IfOk result (λ place. place ≡ place_named self.old name.now) }
        ensures same { self.new ≡ self.old }
    {
        if is_named_at(self.exports, self.next, name) {
            return Ok(Some(self.next));
        }
        if self.calls <= FEW {
            return Ok(place_among(self.exports, name));
        }
        self.place_by_map(alloc, name)
    }

    fn place_by_map(&mut self, alloc: Global, name: &[u8]) -> Result<Option<usize>, AllocError>
        ensures place { IfOk result (λ place. place ≡ place_named self.old name.now) }
        ensures same { self.new ≡ self.old }
    {
        let places = match self.places.take() {
            Some(places) => places,
            None => places_of(alloc, self.exports)?,
        };
        let place = place_in(&places, name);
        self.places = Some(places);
        Ok(place)
    }
}

// Whether the export at a place has this name.
fn is_named_at(exports: &[WasmExport<'_>], place: usize, name: &[u8]) -> bool
    ensures { result ≡ is_named_at (map export_of exports.now) place name.now }
{
    match exports.get(place) {
        Some(export) => export.name.as_bytes() == name,
        None => false,
    }
}

// The place of the first export of this name.
fn place_among(exports: &[WasmExport<'_>], name: &[u8]) -> Option<usize>
    ensures { result ≡ place_named (map export_of exports.now) name.now }
{
    for (i, export) in exports.iter().enumerate() {
        if export.name.as_bytes() == name {
            return Some(i);
        }
    }
    None
}

fn place_in(places: &IndexMap<&[u8], usize, KeyHashes>, name: &[u8]) -> Option<usize>
    ensures { result ≡ found places.now name.now }
{
    match places.get(name) {
        Some(place) => Some(*place),
        None => None,
    }
}

// Hashers for the names of exports.
fn hashes_of(exports: &[WasmExport<'_>]) -> KeyHashes {
    let mut seed = Seed::new();
    for export in exports {
        seed.add(export.name.as_bytes());
    }
    seed.hashes()
}

// Later exports are put in first, so that an earlier one takes their place.
fn places_of<'a>(
    alloc: Global,
    exports: &'a [WasmExport<'a>],
) -> Result<IndexMap<&'a [u8], usize, KeyHashes>, AllocError>
    ensures { IfOk result (λ places. (n : List ℕ) → found places n ≡ place_named (map export_of exports.now) n) }
{
    let mut places = IndexMap::with_capacity_and_hasher(alloc, exports.len(), hashes_of(exports))?;
    let mut i = exports.len();
    while i > 0 {
        i -= 1;
        put(&mut places, &exports[i], i)?;
    }
    Ok(places)
}

fn put<'a>(
    places: &mut IndexMap<&'a [u8], usize, KeyHashes>,
    export: &'a WasmExport<'a>,
    place: usize,
) -> Result<(), AllocError>
    ensures { IfOk result (λ _. (n : List ℕ) → found places.new n ≡ (if bytes_eq (bytes_of export.now.name) n then Some place else found places.old n)) }
{
    let name = export.name.as_bytes();
    places.insert(name, place)?;
    Ok(())
}

// The function of the first export of a name, which stands at this place.
#[tactic(auto, using(crate::proofs::ExportNames::function_here, crate::proofs::ExportNames::place_within))]
fn function_at(exports: &[WasmExport<'_>], place: usize, name: &[u8]) -> Option<u32>
    requires { place_named (map export_of exports.now) name.now ≡ Some place }
    ensures { result ≡ session.function_named (map export_of exports.now) name.now }
{
    exported_function(exports[place].kind)
}

fn exported_function(kind: ExportKind) -> Option<u32>
    ensures { result ≡ session.exported_function kind }
{
    match kind {
        ExportKind::Func(function) => Some(function),
        ExportKind::Table(_) | ExportKind::Memory(_) | ExportKind::Global(_) => None,
    }
}

// The exports of a valid module.
fn exports_of<'a>(valid: &'a Valid<'_>) -> &'a [WasmExport<'a>]
    ensures exports { map export_of result.now ≡ valid.now.exports }
    ensures first { EachIsFirst (map export_of result.now) }
{
    valid.module().exports.as_slice()
}

/// The functions that calls of exports of a valid module name, in the order of the calls. None for a name under which no function
/// is exported.
pub fn callees(
    alloc: Global,
    valid: &Valid<'_>,
    calls: &[CallLine],
) -> Result<Vec<Option<u32>>, AllocError>
    ensures { IfOk result (λ functions. functions.items ≡ callees_of valid.now (map call_of calls.now)) }
{
    let mut exports = Exports::new(exports_of(valid), calls.len());
    let mut functions = Vec::with_capacity(alloc, calls.len())?;
    for call in calls {
        functions.push(exports.function_named(alloc, call.name.as_bytes())?)?;
    }
    Ok(functions)
}
