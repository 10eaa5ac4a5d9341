// The imported globals of a module, by their names.

ghost use Rattle.std.specs.Prelude.{◌≡◌, ℕ, List, [], ◌++◌, ◌∷◌, ◌&&◌, Some, IfOk, OnOk, map, if◌then◌else◌};
ghost use Rattle.std.specs.Str.{bytes_eq};
ghost use Rattle.sem_words.specs.Lists.{text_bytes};
ghost use Rattle.wasm_tree.specs.Views.{import_of};
ghost use Rattle.session_lang.specs.Fits as parts;
ghost use Rattle.script_lines.specs.GlobalLines.{found};
ghost use Rattle.wasm_lang_exec.specs.Fits;
ghost use Rattle.wasm_lang_exec.specs.Fits.{global_imports, global_names};
ghost use Rattle.wasm_run.specs.Globals.{kind_named, narrowest};
ghost use Rattle.wasm_run.specs.GlobalViews.{imported_of};

use crate::ranges::in_range;
use indexmap::IndexMap;
use key_hashes::{KeyHashes, Seed};
use script_lines::Lines;
use sem_words::Text;
use session_lang::import_name;
use std::alloc::{AllocError, Global};
use std::marker::Model;
use wasm_lang::{ImportKind, ValType};
use wasm_tree::Import;

/// An imported global, by its one name.
#[derive(Drop)]
pub struct ImportedGlobal {
    pub name: Text,
    pub kind: ValType,
}

// Adds the global of an import, if it imports one.
fn add_import(
    alloc: Global,
    globals: &mut Vec<ImportedGlobal>,
    import: &Import<'_>,
) -> Result<(), AllocError>
    ensures { OnOk result (map imported_of globals.new.items ≡ map imported_of globals.old.items ++ global_imports (import_of import.now ∷ [])) }
{
    match import.kind {
        ImportKind::Global(global) => {
            let name = import_name(alloc, import.module.as_bytes(), import.field.as_bytes())?;
            push(globals, name, global.kind)?;
            Ok(())
        }
        ImportKind::Func(_) | ImportKind::Table(_) | ImportKind::Memory(_) => Ok(()),
    }
}

fn push(globals: &mut Vec<ImportedGlobal>, name: Text, kind: ValType) -> Result<(), AllocError>
    ensures { OnOk result (map imported_of globals.new.items ≡ map imported_of globals.old.items ++ record { name = text_bytes name; type = kind } ∷ []) }
{
    match globals.push(ImportedGlobal { name, kind }) {
        Ok(()) => Ok(()),
        Err(_) => Err(AllocError),
    }
}

/// The imported globals, in order.
#[tactic(auto, using(crate::proofs::GlobalKinds::one_import))]
pub fn imported_globals(
    alloc: Global,
    imports: &[Import<'_>],
) -> Result<Vec<ImportedGlobal>, AllocError>
    ensures { IfOk result (λ globals. map imported_of globals.items ≡ global_imports (map import_of imports.now)) }
{
    let mut globals = Vec::new(alloc);
    for import in imports {
        add_import(alloc, &mut globals, import)?;
    }
    Ok(globals)
}

/// Imported globals, whose kinds are found by their names. Of several of one name the narrowest kind counts: its range
/// is in those of the others.
#[derive(Drop)]
pub struct Imported<'a> {
    globals: &'a [ImportedGlobal],
    kinds: IndexMap<&'a [u8], ValType, KeyHashes>,
}

impl<'a> Model for Imported<'a> {
    ghost use Rattle.std.specs.Prelude.{◌≡◌, ℕ, List, map};
    ghost use Rattle.wasm_lang_exec.specs.Fits.{GlobalImport};
    ghost use Rattle.script_lines.specs.GlobalLines.{found};
    ghost use Rattle.wasm_run.specs.Globals.{kind_named};
    ghost use Rattle.wasm_run.specs.GlobalViews.{imported_of};

    ghost Value = { List GlobalImport };

    ghost view = { λ s. map imported_of s.globals.now };

    ghost invariant = { λ s. (n : List ℕ) → found s.kinds n ≡ kind_named (map imported_of s.globals.now) n };
}

impl<'a> Imported<'a> {
    /// These globals.
    pub fn new(alloc: Global, globals: &'a [ImportedGlobal]) -> Result<Imported<'a>, AllocError>
        ensures { IfOk result (λ imported. imported ≡ map imported_of globals.now) }
    {
        let kinds = kinds_of(alloc, globals)?;
        Ok(Imported { globals, kinds })
    }

    // The narrowest kind of the globals of a name.
    fn kind(&self, name: &[u8]) -> Option<ValType>
        ensures { result ≡ kind_named self.now name.now }
    {
        match self.kinds.get(name) {
            Some(kind) => Some(*kind),
            None => None,
        }
    }

    /// Whether one of the globals has this name, and the value is in the range of each that has it.
    #[tactic(auto, using(crate::proofs::GlobalKinds::kind_found, crate::proofs::GlobalKinds::no_kind))]
    pub fn takes(&self, name: &[u8], value: i128) -> bool
        ensures { result ≡ (Fits.is_imported self.now name.now && Fits.has_range self.now name.now value) }
    {
        match self.kind(name) {
            Some(kind) => in_range(kind, value),
            None => false,
        }
    }

    /// Whether each of the globals has a line.
    pub fn are_given(&self, lines: &Lines<'_>) -> bool
        ensures { result ≡ parts.are_given (global_names self.now) lines.now }
    {
        are_given(self.globals, lines)
    }
}

fn are_given(globals: &[ImportedGlobal], lines: &Lines<'_>) -> bool
    ensures { result ≡ parts.are_given (global_names (map imported_of globals.now)) lines.now }
{
    for global in globals {
        if !lines.is_given(global.name.as_bytes()) {
            return false;
        }
    }
    true
}

// Hashers for the names of imported globals.
fn hashes_of(globals: &[ImportedGlobal]) -> KeyHashes {
    let mut seed = Seed::new();
    for global in globals {
        seed.add(global.name.as_bytes());
    }
    seed.hashes()
}

// Later globals are put in first.
fn kinds_of<'a>(
    alloc: Global,
    globals: &'a [ImportedGlobal],
) -> Result<IndexMap<&'a [u8], ValType, KeyHashes>, AllocError>
    ensures { IfOk result (λ kinds. (n : List ℕ) → found kinds n ≡ kind_named (map imported_of globals.now) n) }
{
    let mut kinds = IndexMap::with_capacity_and_hasher(alloc, globals.len(), hashes_of(globals))?;
    let mut i = globals.len();
    while i > 0 {
        i -= 1;
        put(&mut kinds, &globals[i])?;
    }
    Ok(kinds)
}

fn put<'a>(
    kinds: &mut IndexMap<&'a [u8], ValType, KeyHashes>,
    global: &'a ImportedGlobal,
) -> Result<(), AllocError>
    ensures { IfOk result (λ _. (n : List ℕ) → found kinds.new n
        ≡ (if bytes_eq (text_bytes global.now.name) n then Some (narrowest global.now.kind (found kinds.old (text_bytes global.now.name))) else found kinds.old n)) }
{
    let name = global.name.as_bytes();
    let kind = kind_with(kinds, name, global.kind);
    kinds.insert(name, kind)?;
    Ok(())
}

// The narrowest of a kind and that of a name, where it has one.
fn kind_with(kinds: &IndexMap<&[u8], ValType, KeyHashes>, name: &[u8], kind: ValType) -> ValType
    ensures { result ≡ narrowest kind (found kinds.now name.now) }
{
    match kinds.get(name) {
        Some(other) => narrower(kind, *other),
        None => kind,
    }
}

fn narrower(kind: ValType, other: ValType) -> ValType
    ensures { result ≡ narrowest kind (Some other) }
{
    match kind {
        ValType::I32 => ValType::I32,
        ValType::I64 => other,
    }
}
