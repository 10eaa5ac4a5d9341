// The functions that a module exports, by their names.

ghost use Rattle.std.specs.Prelude.{◌≡◌, ℕ, List, Some, Option, IfOk, map, if◌then◌else◌};
ghost use Rattle.std.specs.Str.{bytes_eq};
ghost use Rattle.wasm_tree.specs.Views.{export_of};
ghost use Rattle.wasm_lang_exec.specs.Session.{exported_function, function_named};
ghost use Rattle.wasm_link_bind.specs.Exports.{found};
ghost use Rattle.wasm_link_bind.specs.Sizes.{AreSizes};

use crate::counts::{Sizes, sizes_of};
use indexmap::IndexMap;
use key_hashes::{KeyHashes, NameKey, Seed};
use std::alloc::{AllocError, Global};
use std::marker::Model;
use wasm_lang::ExportKind;
use wasm_tree::WasmExport;
use wasm_validate::Valid;

/// A module, with a map from the names of its exports to the functions that they name.
#[derive(Drop)]
pub struct Exporting<'a> {
    valid: &'a Valid<'a>,
    sizes: Sizes,
    functions: IndexMap<NameKey<'a>, Option<u32>, KeyHashes>,
}

impl<'a> Model for Exporting<'a> {
    ghost use Rattle.std.specs.Prelude.{◌≡◌, ℕ, List};
    ghost use Rattle.wasm_lang.specs.Modules.{WasmModule};
    ghost use Rattle.wasm_lang_exec.specs.Session.{function_named};
    ghost use Rattle.wasm_link_bind.specs.Exports.{found};
    ghost use Rattle.wasm_link_bind.specs.Sizes.{AreSizes};

    ghost Value = { WasmModule };

    ghost view = { λ e. e.valid.now };

    ghost invariant = { λ e. ((n : List ℕ) → found e.functions n ≡ function_named e.valid.now.exports n) × AreSizes e.sizes e.valid.now };
}

impl<'a> Exporting<'a> {
    /// The module with its map.
    pub fn new(alloc: Global, valid: &'a Valid<'a>) -> Result<Exporting<'a>, AllocError>
        ensures { IfOk result (λ e. e ≡ valid.now) }
    {
        let module = valid.module();
        let sizes = sizes_of(module)?;
        let functions = functions_of(alloc, module.exports.as_slice())?;
        Ok(Exporting {
            valid,
            sizes,
            functions,
        })
    }

    /// The module.
    pub fn valid(&self) -> &'a Valid<'a>
        ensures { result.now ≡ self.now }
    {
        self.valid
    }

    /// How many functions, types and globals it has.
    pub fn sizes(&self) -> Sizes
        ensures { AreSizes result self.now }
    {
        self.sizes
    }

    /// The function that is exported under a name.
    pub fn function(&self, name: &[u8]) -> Option<u32>
        ensures { result ≡ function_named self.now.exports name.now }
    {
        match self.functions.get(&NameKey::of(name)) {
            Some(function) => *function,
            None => None,
        }
    }
}

// Later exports are put in first, so that an earlier one of their name takes their place.
fn functions_of<'a>(
    alloc: Global,
    exports: &'a [WasmExport<'a>],
) -> Result<IndexMap<NameKey<'a>, Option<u32>, KeyHashes>, AllocError>
    ensures { IfOk result (λ functions. (n : List ℕ) → found functions n ≡ function_named (map export_of exports.now) n) }
{
    let mut functions = IndexMap::with_capacity_and_hasher(
        alloc,
        exports.len(),
        hashes_of(exports),
    )?;
    let mut i = exports.len();
    while i > 0 {
        i -= 1;
        put(&mut functions, &exports[i])?;
    }
    Ok(functions)
}

fn put<'a>(
    functions: &mut IndexMap<NameKey<'a>, Option<u32>, KeyHashes>,
    export: &'a WasmExport<'a>,
) -> Result<(), AllocError>
    ensures { IfOk result (λ _. (n : List ℕ) → found functions.new n ≡ (if bytes_eq (export_of export.now).name n then exported_function (export_of export.now).kind else found functions.old n)) }
{
    let function = function_of(export.kind);
    functions.insert(NameKey::of(export.name.as_bytes()), function)?;
    Ok(())
}

/// The function that an export of this kind names.
pub fn function_of(kind: ExportKind) -> Option<u32>
    ensures { result ≡ exported_function kind }
{
    match kind {
        ExportKind::Func(function) => Some(function),
        ExportKind::Table(_) | ExportKind::Memory(_) | ExportKind::Global(_) => None,
    }
}

// Hashers for the names of exports.
fn hashes_of(exports: &[WasmExport<'_>]) -> KeyHashes {
    let mut seed = Seed::new();
    for export in exports {
        seed.add(export.name.as_bytes());
    }
    seed.hashes()
}
