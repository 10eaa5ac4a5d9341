//! The declarations that the statements of a function use.

ghost use Rattle.std.specs.Prelude.{◌≡◌, ◌||◌, ℕ, List, Some, IfOk, filter_map, map, option_map};
ghost use Rattle.sem_words.specs.Lists.{text_bytes};
ghost use Rattle.asm_lang_valid.specs.Scope.{is_in};
ghost use Rattle.asm_short_lang.specs.Sequence.{numbered};
ghost use Rattle.asm_short_lang.specs.Uses as plain;
ghost use Rattle.asm_short_names.specs.Excluding.{excludes};
ghost use Rattle.asm_short_uses.specs.Views.{use_view, uses_view};
ghost use Rattle.asm_short_tree.specs.Looking.{new_name, names_in};
ghost use Rattle.asm_short_modules.specs.Using.{leaves_out, is_named, used_with, has_name, IsSetOf};

use asm_short_names::Excluded;
use asm_short_tree::{Names, NewName};
use asm_short_uses::Use;
use indexmap::IndexSet;
use key_hashes::{KeyHashes, NameKey, Seed, hashes_of};
use sem_words::Text;
use std::alloc::{AllocError, Global};

/// The numbers of the new names of declarations that are used, and whether the one whose name is kept is.
#[derive(Drop)]
pub struct Used {
    numbers: IndexSet<u64, KeyHashes>,
    kept: bool,
}

impl Used {
    /// What is left out of the names of variables.
    pub fn excluded<'u>(&'u self, kept: &'u [u8]) -> Excluded<'u>
        ensures { (n : ℕ) → excludes result n ≡ leaves_out self.now kept.now n }
    {
        let name = if self.kept { Some(kept) } else { None };
        Excluded {
            numbers: &self.numbers,
            kept: name,
        }
    }

    fn add(&mut self, new: Option<NewName>) -> Result<(), AllocError>
        ensures { IfOk result (λ _. (kept : List ℕ) (n : ℕ) → leaves_out self.new kept n ≡ (leaves_out self.old kept n || is_named n (option_map (new_name kept) new))) }
    {
        match new {
            None => {}
            Some(NewName::Kept) => self.kept = true,
            Some(NewName::Numbered(number)) => {
                self.numbers.insert(number)?;
            }
        }
        Ok(())
    }
}

fn name_of<'a>(used: &Use<'a>) -> &'a Text
    ensures { text_bytes result.now ≡ plain.name_of (use_view used.now) }
{
    match used {
        Use::Variable(name) | Use::View(name) | Use::Callee(name) | Use::Table(name) => name,
    }
}

// Hashers for the numbers of what is used.
fn use_hashes(uses: &[Use<'_>]) -> KeyHashes {
    let mut seed = Seed::new();
    for one in uses {
        seed.add(name_of(one).as_bytes());
    }
    seed.hashes()
}

/// The names of a function's variables, as a set.
fn set_of<'a>(
    alloc: Global,
    names: &[&'a [u8]],
) -> Result<IndexSet<NameKey<'a>, KeyHashes>, AllocError>
    ensures { IfOk result (IsSetOf (names_in names.now)) }
{
    let mut set = IndexSet::with_capacity_and_hasher(alloc, names.len(), hashes_of(names))?;
    for name in names {
        set.insert(NameKey::of(name))?;
    }
    Ok(set)
}

/// The declarations that stand behind names in a function with variables of these names, which hide declarations.
pub fn used_of(
    alloc: Global,
    declared: &Names<'_>,
    locals: &[&[u8]],
    uses: &[Use<'_>],
) -> Result<Used, AllocError>
    ensures { IfOk result (λ used. (n : ℕ) → leaves_out used declared.now.kept.now n ≡ is_in (numbered n) (filter_map (used_with (names_in locals.now) declared.now) (map plain.name_of (uses_view uses.now)))) }
{
    let hidden = set_of(alloc, locals)?;
    let mut used = Used {
        numbers: IndexSet::with_hasher(alloc, use_hashes(uses)),
        kept: false,
    };
    for one in uses {
        let name = name_of(one);
        let new = used_name(&hidden, declared, name);
        used.add(new)?;
    }
    Ok(used)
}

// The new name of a declaration, unless a variable hides it.
fn used_name(
    hidden: &IndexSet<NameKey<'_>, KeyHashes>,
    declared: &Names<'_>,
    name: &Text,
) -> Option<NewName>
    ensures { (locals : List (List ℕ)) → IsSetOf locals hidden.now → option_map (new_name declared.now.kept.now) result ≡ used_with locals declared.now (text_bytes name.now) }
{
    if hidden.contains(&NameKey::of(name.as_bytes())) {
        None
    } else {
        declared.get(name.as_bytes())
    }
}
