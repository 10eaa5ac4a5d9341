// The numbers of the members that declarations import, by their names. Later ones are put in first, so that an earlier
// one takes their place.

ghost use Rattle.std.specs.Prelude.{◌≡◌, ℕ, List, IfOk, length, map, if◌then◌else◌};
ghost use Rattle.asm_tree.specs.Views.{module_view, global_view, init_view};
ghost use Rattle.asm_lang_valid.specs.Scope.{is_name};
ghost use Rattle.asm_names.specs.Members.{first_import, member_name, number_in};

use asm_tree::{Global_, Init, Module};
use indexmap::IndexMap;
use key_hashes::{KeyHashes, NameKey};
use std::alloc::{AllocError, Global};

/// For each member that the module imports, the number of the first declaration that imports one of its name.
pub fn imports_of<'a>(
    alloc: Global,
    home: &'a Module,
    hashes: KeyHashes,
) -> Result<IndexMap<NameKey<'a>, usize, KeyHashes>, AllocError>
    ensures { IfOk result (λ imports. (n : List ℕ) → number_in imports n (length (module_view home.now).globals) ≡ first_import (module_view home.now).globals n) }
{
    let mut imports = IndexMap::with_hasher(alloc, hashes);
    put_imports(&mut imports, home.globals.as_slice())?;
    Ok(imports)
}

fn put_imports<'a>(
    imports: &mut IndexMap<NameKey<'a>, usize, KeyHashes>,
    globals: &'a [Global_],
) -> Result<(), AllocError>
    ensures { IfOk result (λ _. (n : List ℕ) → number_in imports.old n (length globals.now) ≡ length globals.now → number_in imports.new n (length globals.now) ≡ first_import (map global_view globals.now) n) }
{
    let mut i = globals.len();
    while i > 0 {
        i -= 1;
        let global = &globals[i];
        put_import(imports, &global.init, i)?;
    }
    Ok(())
}

fn put_import<'a>(
    imports: &mut IndexMap<NameKey<'a>, usize, KeyHashes>,
    init: &'a Init,
    number: usize,
) -> Result<(), AllocError>
    ensures { IfOk result (λ _. (n : List ℕ) (o : ℕ) → number_in imports.new n o ≡ (if is_name n (member_name (init_view init.now)) then number else number_in imports.old n o)) }
{
    match init {
        Init::Member(_, field) => {
            imports.insert(NameKey::of(field.as_bytes()), number)?;
            Ok(())
        }
        Init::Number(_)
        | Init::Decimal(_)
        | Init::ForeignInt(_, _)
        | Init::ForeignDouble(_, _)
        | Init::Math(_, _)
        | Init::View(_, _, _) => Ok(()),
    }
}
