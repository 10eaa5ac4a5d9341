// The foreign members that global variables import.

ghost use Rattle.std.specs.Prelude.{◌≡◌, IfOk};
ghost use Rattle.sem_words.specs.Lists.{text_bytes};
ghost use Rattle.asm_tree.specs.Views.{module_view, init_view};
ghost use Rattle.asm_lang_valid.specs.Scope.{is_in};
ghost use Rattle.asm_lang_valid.specs.NameRows as rows;
ghost use Rattle.asm_validate_names.specs.Imported.{imports_view, no_imports};
ghost use Rattle.asm_validate_names.specs.Seen.{names};

use crate::seen::add;
use crate::words::is_forbidden_key;
use asm_names::is_foreign;
use asm_tree::{Init, Module};
use indexmap::IndexSet;
use key_hashes::KeyHashes;
use sem_words::Text;
use std::alloc::{AllocError, Global};

/// The members of the foreign object that were imported as values, and those that were as functions.
#[derive(Drop)]
pub struct Imports<'a> {
    values: IndexSet<&'a [u8], KeyHashes>,
    functions: IndexSet<&'a [u8], KeyHashes>,
}

impl<'a> Imports<'a> {
    /// None yet.
    pub fn new(alloc: Global, hashes: KeyHashes) -> Imports<'a>
        ensures { imports_view result ≡ no_imports }
    {
        Imports {
            values: IndexSet::with_hasher(alloc, hashes),
            functions: IndexSet::with_hasher(alloc, hashes),
        }
    }
}

/// Whether a member is imported as a value here and as a function before, or the other way round.
pub fn clashes(home: &Module, imports: &Imports<'_>, init: &Init) -> bool
    ensures { result ≡ rows.clashes (module_view home.now) (imports_view imports.now) (init_view init.now) }
{
    match init {
        Init::ForeignInt(object, field) | Init::ForeignDouble(object, field) => {
            is_foreign(home, object) && has(&imports.functions, field)
        }
        Init::Member(object, field) => is_foreign(home, object) && has(&imports.values, field),
        _ => false,
    }
}

#[tactic(auto, using(crate::proofs::Rest::seen_is))]
fn has(set: &IndexSet<&[u8], KeyHashes>, name: &Text) -> bool
    ensures { result ≡ is_in (text_bytes name.now) (names set.now) }
{
    set.contains(name.as_bytes())
}

/// Whether a declaration imports a member of a forbidden name.
pub fn has_forbidden_member(home: &Module, init: &Init) -> bool
    ensures { result ≡ rows.has_forbidden_member (module_view home.now) (init_view init.now) }
{
    match init {
        Init::ForeignInt(object, field)
        | Init::ForeignDouble(object, field)
        | Init::Member(object, field) => {
            is_foreign(home, object) && is_forbidden_key(field.as_bytes())
        }
        _ => false,
    }
}

/// Adds what a declaration imports.
pub fn add_import<'a>(
    imports: &mut Imports<'a>,
    home: &Module,
    init: &'a Init,
) -> Result<(), AllocError>
    ensures { IfOk result (λ _. imports_view imports.new ≡ rows.with_import (module_view home.now) (init_view init.now) (imports_view imports.old)) }
{
    match init {
        Init::ForeignInt(object, field) | Init::ForeignDouble(object, field) => {
            if is_foreign(home, object) {
                add(&mut imports.values, field)?;
            }
            Ok(())
        }
        Init::Member(object, field) => {
            if is_foreign(home, object) {
                add(&mut imports.functions, field)?;
            }
            Ok(())
        }
        _ => Ok(()),
    }
}
