// Names by their places.
ghost use Rattle.std.specs.Prelude.{◌≡◌, ◌<◌, ◌^◌, ℕ, List, Some, IfOk, IfSome, if◌then◌else◌};
ghost use Rattle.std.specs.Str.{bytes_eq};
ghost use Rattle.asm2wasm_translation.specs.Numbers.{slot_of};
ghost use Rattle.name_slots.specs.Names.{names_in, found, slot_or_length};

use indexmap::IndexMap;
use key_hashes::{KeyHashes, NameKey, hashes_of};
use std::alloc::{AllocError, Global};
use std::marker::Model;

/// Names in order, each found by a map. Of equal names the first counts.
pub struct Slots<'a> {
    names: Vec<&'a [u8]>,
    slots: IndexMap<NameKey<'a>, usize, KeyHashes>,
}

/// By hand, so that the end of the names is one call wherever they are let go.
impl Drop for Slots<'_> {
    fn drop(self) {
        let Slots { names: _, slots: _ } = self;
    }
}

impl<'a> Model for Slots<'a> {
    ghost use Rattle.std.specs.Prelude.{◌≡◌, List, ℕ};
    ghost use Rattle.asm2wasm_translation.specs.Numbers.{slot_of};
    ghost use Rattle.name_slots.specs.Names.{names_in, found};

    ghost Value = { List (List ℕ) };

    ghost view = { λ s. names_in s.names.items };

    ghost invariant = { λ s. (n : List ℕ) → found s.slots n ≡ slot_of (names_in s.names.items) n };
}

impl<'a> Slots<'a> {
    /// The places of these names.
    pub fn new(alloc: Global, names: Vec<&'a [u8]>) -> Result<Slots<'a>, AllocError>
        ensures { IfOk result (λ slots. slots ≡ names_in names.entry.items) }
    {
        let slots = slots_of(alloc, names.as_slice())?;
        Ok(Slots { names, slots })
    }

    /// The place of a name, if it is one of these.
    pub fn slot(&self, name: &[u8]) -> Option<usize>
        ensures place { result ≡ slot_of self.now name.now }
        ensures small { IfSome result (λ i. i < 2 ^ 63) }
    {
        match self.slots.get(&NameKey::of(name)) {
            Some(slot) => Some(*slot),
            None => None,
        }
    }

    /// The place of a name, or how many names there are.
    pub fn slot_or_len(&self, name: &[u8]) -> usize
        ensures place { result ≡ slot_or_length self.now name.now }
        ensures small { result < 2 ^ 63 }
    {
        match self.slots.get(&NameKey::of(name)) {
            Some(slot) => *slot,
            None => self.names.len(),
        }
    }
}

// Later names are put in first, so that an earlier one takes their place.
fn slots_of<'a>(
    alloc: Global,
    names: &[&'a [u8]],
) -> Result<IndexMap<NameKey<'a>, usize, KeyHashes>, AllocError>
    ensures { IfOk result (λ slots. (n : List ℕ) → found slots n ≡ slot_of (names_in names.now) n) }
{
    let mut slots = IndexMap::with_capacity_and_hasher(alloc, names.len(), hashes_of(names))?;
    let mut i = names.len();
    while i > 0 {
        i -= 1;
        put(&mut slots, names[i], i)?;
    }
    Ok(slots)
}

fn put<'a>(
    slots: &mut IndexMap<NameKey<'a>, usize, KeyHashes>,
    name: &'a [u8],
    slot: usize,
) -> Result<(), AllocError>
    ensures { IfOk result (λ _. (n : List ℕ) → found slots.new n ≡ (if bytes_eq name.now n then Some slot else found slots.old n)) }
{
    slots.insert(NameKey::of(name), slot)?;
    Ok(())
}
