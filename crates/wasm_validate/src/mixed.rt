// The first import of a name that is imported as a function and as a global.

ghost use Rattle.std.specs.Prelude.{◌≡◌, ◌||◌, ◌++◌, ◌∷◌, [], List, map, IfOk};
ghost use Rattle.wasm_lang.specs.Modules.{Imported};
ghost use Rattle.wasm_tree.specs.Views.{import_of};
ghost use Rattle.wasm_lang_valid.specs.Measures;
ghost use Rattle.wasm_lang_valid.specs.Measures.{is_given, mixes};
ghost use Rattle.wasm_validate.specs.Mixed.{AreNames, holds, is_named};

use indexmap::IndexSet;
use key_hashes::{KeyHashes, Seed};
use std::alloc::{AllocError, Global};
use wasm_lang::ImportKind;
use wasm_tree::Import;

/// The names, of module and field, that were imported as functions, and as globals.
#[derive(Drop)]
pub struct Names<'a> {
    functions: IndexSet<(&'a [u8], &'a [u8]), KeyHashes>,
    globals: IndexSet<(&'a [u8], &'a [u8]), KeyHashes>,
}

impl<'a> Names<'a> {
    fn new(alloc: Global, hashes: KeyHashes) -> Names<'a>
        ensures { AreNames result [] }
    {
        Names {
            functions: IndexSet::with_hasher(alloc, hashes),
            globals: IndexSet::with_hasher(alloc, hashes),
        }
    }

    // Whether an import after those is of a name of the other kind.
    fn mixes(&self, import: &Import<'_>) -> bool
        ensures { (before : List Imported) → AreNames self.now before → result ≡ mixes before (import_of import.now) }
    {
        let name = (import.module.as_bytes(), import.field.as_bytes());
        match import.kind {
            ImportKind::Func(_) => self.globals.contains(&name),
            ImportKind::Global(_) => self.functions.contains(&name) || is_given(import),
            ImportKind::Table(_) | ImportKind::Memory(_) => false,
        }
    }

    // One more import.
    fn add(&mut self, import: &'a Import<'_>) -> Result<(), AllocError>
        ensures { IfOk result (λ _. (before : List Imported) → AreNames self.old before → AreNames self.new (before ++ import_of import.now ∷ [])) }
    {
        let name = (import.module.as_bytes(), import.field.as_bytes());
        match import.kind {
            ImportKind::Func(_) => insert(&mut self.functions, name),
            ImportKind::Global(_) => insert(&mut self.globals, name),
            ImportKind::Table(_) | ImportKind::Memory(_) => Ok(()),
        }
    }
}

// One more name.
fn insert<'n>(
    names: &mut IndexSet<(&'n [u8], &'n [u8]), KeyHashes>,
    name: (&'n [u8], &'n [u8]),
) -> Result<(), AllocError>
    ensures { IfOk result (λ _. (i : Imported) → holds names.new.keys i ≡ holds names.old.keys i || is_named i name.entry) }
{
    match names.insert(name) {
        Ok(_) => Ok(()),
        Err(_) => Err(AllocError),
    }
}

// Whether an import is of one of the two functions of `env` that every module has.
fn is_given(import: &Import<'_>) -> bool
    ensures { result ≡ is_given (import_of import.now) }
{
    let field = import.field.as_bytes();
    import.module.as_bytes() == b"env".as_slice()
        && (field == b"$high".as_slice() || field == b"$trap".as_slice())
}

// Hashers for the names of imports.
fn hashes_of(imports: &[Import<'_>]) -> KeyHashes {
    let mut seed = Seed::new();
    for import in imports {
        seed.add(import.module.as_bytes());
        seed.add(import.field.as_bytes());
    }
    seed.hashes()
}

/// The number of the first import of a name that is imported as a function and as a global.
pub fn first_mixed(alloc: Global, imports: &[Import<'_>]) -> Result<Option<usize>, AllocError>
    ensures { IfOk result (λ n. n ≡ Measures.first_mixed [] 0 (map import_of imports.now)) }
{
    let mut names = Names::new(alloc, hashes_of(imports));
    for (i, import) in imports.iter().enumerate() {
        if names.mixes(import) {
            return Ok(Some(i));
        }
        names.add(import)?;
    }
    Ok(None)
}
