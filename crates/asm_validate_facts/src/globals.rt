// The foreign members that are imported as ints.

ghost use Rattle.std.specs.Prelude.{◌≡◌, [], map, IfOk};
ghost use Rattle.sem_words.specs.Lists.{list_items, text_bytes};
ghost use Rattle.asm_tree.specs.Views.{texts_view, global_view, init_view};
ghost use Rattle.asm_lang_valid.specs.NameRows.{added};
ghost use Rattle.asm_lang_valid.specs.Refusal.{with_global, global_imports};
ghost use Rattle.asm_validate_facts.specs.Names.{held, bytes_of};

use asm_tree::{Global_, Init};
use indexmap::IndexSet;
use key_hashes::{KeyHashes, Seed};
use sem_words::{List, Text};
use std::alloc::{AllocError, Global};

// One declaration more.
fn add<'a>(names: &mut IndexSet<&'a [u8], KeyHashes>, init: &'a Init) -> Result<(), AllocError>
    ensures { IfOk result (λ _. held names.new ≡ with_global (held names.old) (init_view init.now)) }
{
    match init {
        Init::ForeignInt(_, field) => insert(names, field),
        Init::Number(_)
        | Init::Decimal(_)
        | Init::ForeignDouble(_, _)
        | Init::Member(_, _)
        | Init::Math(_, _)
        | Init::View(_, _, _) => Ok(()),
    }
}

fn insert<'a>(names: &mut IndexSet<&'a [u8], KeyHashes>, name: &'a Text) -> Result<(), AllocError>
    ensures { IfOk result (λ _. held names.new ≡ added (held names.old) (text_bytes name.now)) }
{
    names.insert(name.as_bytes())?;
    Ok(())
}

// Hashers for the names of foreign members.
fn hashes_of(globals: &[Global_]) -> KeyHashes {
    let mut seed = Seed::new();
    for global in globals {
        if let Init::ForeignInt(_, field) = &global.init {
            seed.add(field.as_bytes());
        }
    }
    seed.hashes()
}

/// Each once, in order of first declaration.
pub fn foreign_globals(alloc: Global, globals: &[Global_]) -> Result<List<Text>, AllocError>
    ensures { IfOk result (λ texts. texts_view (list_items texts) ≡ global_imports [] (map global_view globals.now)) }
{
    let mut names = IndexSet::with_hasher(alloc, hashes_of(globals));
    for global in globals {
        add(&mut names, &global.init)?;
    }
    copied(alloc, names.as_slice())
}

fn copied(alloc: Global, names: &[&[u8]]) -> Result<List<Text>, AllocError>
    ensures { IfOk result (λ texts. texts_view (list_items texts) ≡ bytes_of names.now) }
{
    let mut texts = Vec::new(alloc);
    for name in names {
        texts.push(Text::from_bytes(alloc, name)?)?;
    }
    Ok(List::from_vec(texts))
}
