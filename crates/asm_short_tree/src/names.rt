//! From old names to new ones.

ghost use Rattle.std.specs.Prelude.{◌≡◌, ℕ, List, IfOk, Some, option_map, if◌then◌else◌};
ghost use Rattle.std.specs.Str.{bytes_eq};
ghost use Rattle.sem_words.specs.Lists.{text_bytes};
ghost use Rattle.asm_short_lang.specs.Renaming.{in_place};
ghost use Rattle.asm_short_tree.specs.Looking.{new_name, new_names, names_in, found, found_in, declared_by};

use asm_short_names::spelled;
use indexmap::IndexMap;
use key_hashes::{KeyHashes, NameKey, hashes_of};
use sem_words::Text;
use std::alloc::{AllocError, Global};

/// A new name.
#[derive(Clone, Copy)]
pub enum NewName {
    /// The name of this number in the sequence.
    Numbered(u64),
    /// The name that a single export keeps.
    Kept,
}

/// New names by old ones.
#[derive(Drop)]
pub struct Names<'a> {
    given: IndexMap<NameKey<'a>, NewName, KeyHashes>,
    /// The name that is kept, if one is.
    kept: &'a [u8],
}

impl<'a> Names<'a> {
    /// Each old name with the new one in its place. Of equal old names the first counts.
    pub fn new(
        alloc: Global,
        kept: &'a [u8],
        olds: &[&'a [u8]],
        news: &[NewName],
    ) -> Result<Names<'a>, AllocError>
        ensures given { IfOk result (λ names. (n : List ℕ) → found names n ≡ in_place (names_in olds.now) (new_names kept.now news.now) n) }
        ensures kept { IfOk result (λ names. names.kept.now ≡ kept.now) }
    {
        let mut given = IndexMap::with_capacity_and_hasher(alloc, olds.len(), hashes_of(olds))?;
        let mut i = olds.len().min(news.len());
        while i > 0 {
            i -= 1;
            put(&mut given, olds[i], news[i])?;
        }
        Ok(Names { given, kept })
    }

    /// The new name of an old one.
    pub fn get(&self, name: &[u8]) -> Option<NewName>
        ensures { option_map (new_name self.now.kept.now) result ≡ found self.now name.now }
    {
        match self.given.get(&NameKey::of(name)) {
            Some(new) => Some(*new),
            None => None,
        }
    }

    /// The text of a new name.
    pub fn written(&self, alloc: Global, new: NewName) -> Result<Text, AllocError>
        ensures { IfOk result (λ text. text_bytes text ≡ new_name self.now.kept.now new) }
    {
        match new {
            NewName::Numbered(number) => Text::from_bytes(alloc, spelled(number).as_bytes()),
            NewName::Kept => Text::from_bytes(alloc, self.kept),
        }
    }

    /// What an old name becomes: one that has no new name stays.
    pub fn text(&self, alloc: Global, name: &Text) -> Result<Text, AllocError>
        ensures { IfOk result (λ text. text_bytes text ≡ declared_by self.now (text_bytes name.now)) }
    {
        match self.get(name.as_bytes()) {
            Some(new) => self.written(alloc, new),
            None => Text::from_bytes(alloc, name.as_bytes()),
        }
    }

    /// The name that is kept.
    pub fn kept(&self) -> &'a [u8]
        ensures { result.now ≡ self.now.kept.now }
    {
        self.kept
    }
}

fn put<'a>(
    given: &mut IndexMap<NameKey<'a>, NewName, KeyHashes>,
    old: &'a [u8],
    new: NewName,
) -> Result<(), AllocError>
    ensures { IfOk result (λ _. (kept n : List ℕ) → found_in kept given.new n ≡ (if bytes_eq old.now n then Some (new_name kept new) else found_in kept given.old n)) }
{
    given.insert(NameKey::of(old), new)?;
    Ok(())
}
