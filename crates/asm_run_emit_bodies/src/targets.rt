// Places to which jumps go, each found by a map.
ghost use Rattle.std.specs.Prelude.{◌≡◌, ℕ, List, [], ◌∷◌, Option, drop, map, OnOk, IsSome, if◌then◌else◌};
ghost use Rattle.sem_words.specs.Lists.{text_bytes};
ghost use Rattle.indexmap.specs.IndexMap.{get};
ghost use Rattle.asm_run_emit_bodies.specs.Targets.{bytes_option, is_label, found, those};

use indexmap::IndexMap;
use key_hashes::{KeyHashes, NameKey};
use sem_words::Text;
use std::alloc::{AllocError, Global};
use std::marker::Model;

// A place, and where jumps with its label went before.
#[derive(Drop)]
struct Opened<'l> {
    label: Option<&'l [u8]>,
    at: u32,
    before: Option<u32>,
}

/// Places to which jumps with a label go, or jumps without one. Of places with one label the innermost counts. The contracts see
/// the innermost first.
#[derive(Drop)]
pub struct Targets<'l> {
    opened: Vec<Opened<'l>>,
    innermost: IndexMap<Option<NameKey<'l>>, u32, KeyHashes>,
}

impl<'l> Model for Targets<'l> {
    ghost use Rattle.std.specs.Prelude.{List, reverse};
    ghost use Rattle.asm_run_emit_bodies.specs.Targets.{Target, targets_of, AreInnermost};

    ghost Value = { List Target };

    ghost view = { λ t. targets_of (reverse t.opened.items) };

    ghost invariant = { λ t. AreInnermost t.innermost (reverse t.opened.items) };
}

impl<'l> Targets<'l> {
    /// None. It takes no memory.
    pub fn new(alloc: Global, hashes: KeyHashes) -> Targets<'l>
        ensures { result ≡ [] }
    {
        Targets {
            opened: Vec::new(alloc),
            innermost: IndexMap::with_hasher(alloc, hashes),
        }
    }

    /// One more place, inside the others.
    pub fn open(&mut self, label: Option<&'l [u8]>, at: u32) -> Result<(), AllocError>
        ensures { OnOk result (self.new ≡ record { label = bytes_option label.entry; at = at } ∷ self.old) }
    {
        self.opened.reserve(1)?;
        let before = self.innermost.insert(key_of(label), at)?;
        self.opened.push(Opened { label, at, before })?;
        Ok(())
    }

    /// A place with each of these labels.
    pub fn open_all(&mut self, labels: &'l [Text], at: u32) -> Result<(), AllocError>
        ensures { OnOk result (self.new ≡ those (map (λ t. text_bytes t) labels.now) at self.old) }
    {
        for label in labels {
            self.open(Some(label.as_bytes()), at)?;
        }
        Ok(())
    }

    /// Without so many of the innermost.
    pub fn close(&mut self, count: usize)
        ensures { self.new ≡ drop count self.old }
    {
        for _ in 0..count {
            self.close_one();
        }
    }

    fn close_one(&mut self)
        ensures { self.new ≡ drop 1 self.old }
    {
        if let Some(last) = self.opened.pop() {
            restore(&mut self.innermost, last.label, last.before);
        }
    }

    /// Where a jump goes with this label, or without one.
    pub fn find(&self, label: Option<&'l [u8]>) -> Option<u32>
        ensures { result ≡ found self.now (bytes_option label.entry) }
    {
        match self.innermost.get(&key_of(label)) {
            Some(at) => Some(*at),
            None => None,
        }
    }
}

fn key_of<'l>(label: Option<&'l [u8]>) -> Option<NameKey<'l>>
    ensures { result ≡ bytes_option label.entry }
{
    match label {
        Some(label) => Some(NameKey::of(label)),
        None => None,
    }
}

// A label leads where it did before.
fn restore<'l>(
    innermost: &mut IndexMap<Option<NameKey<'l>>, u32, KeyHashes>,
    label: Option<&'l [u8]>,
    before: Option<u32>,
)
    requires { IsSome (get is_label innermost.old (bytes_option label)) }
    ensures { (l : Option (List ℕ)) → get is_label innermost.new l ≡ (if is_label (bytes_option label.entry) l then before else get is_label innermost.old l) }
{
    match before {
        Some(at) => {
            if let Some(place) = innermost.get_mut(&key_of(label)) {
                *place = at;
            }
        }
        None => {
            innermost.swap_remove(&key_of(label));
        }
    }
}
