// Seeds.

ghost use Rattle.std.specs.Prelude.{◌≡◌, map};
ghost use Rattle.key_hashes.specs.Hashes as made;

use crate::hashes::KeyHashes;
use std::hash::{DefaultHasher, FoldHasher, Hasher};

/// The keys that maps may hold, one after the other. The hashers that a seed makes rest on all of them, by SipHash-1-3: keys that have
/// one hash by one seed make another seed, so that none can be chosen for it.
#[derive(Clone, Copy, Drop)]
pub struct Seed {
    pub(crate) keys: DefaultHasher,
}

impl Seed {
    /// That of no keys.
    pub fn new() -> Seed
        ensures { result ≡ made.no_keys }
    {
        Seed {
            keys: DefaultHasher::new(),
        }
    }

    /// One key more.
    pub fn add(&mut self, key: &[u8])
        ensures { self.new ≡ made.with_key self.old key.now }
    {
        self.keys.write_usize(key.len());
        self.keys.write(key);
    }

    /// The hashers of maps of these keys.
    pub fn hashes(&self) -> KeyHashes
        ensures { result ≡ made.hashes self.now }
    {
        let mut first = FoldHasher::default();
        first.write_u64(self.keys.finish());
        KeyHashes { first }
    }
}

/// The hashers of maps of these keys.
pub fn hashes_of(keys: &[&[u8]]) -> KeyHashes
    ensures { result ≡ made.hashes_of (map (λ k. k.now) keys.now) }
{
    let mut seed = Seed::new();
    for key in keys {
        seed.add(key);
    }
    seed.hashes()
}
