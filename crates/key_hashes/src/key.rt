// Names as keys.

ghost use Rattle.std.specs.Prelude.{◌≡◌, ◌∷◌, [], nat_eq};
ghost use Rattle.std.proofs.Common.{rules};
ghost use Rattle.std.specs.Cmp.{on_equiv, on_per, partial_equiv_from_equiv};
ghost use Rattle.std.specs.Cmp.Lexicographic.{pointwise, nat_list_eq_equiv};
ghost use Rattle.std.specs.Cmp.Rules.{hashing};

use crate::short::{FEW, ShortName};
use std::hash::{Hash, Hasher};
use std::marker::Model;

#[derive(Drop)]
enum Stored<'a> {
    Short(ShortName),
    Lent(&'a [u8]),
}

/// A name as the key of a map. Where its bytes are few they stand in the key itself, so that a map compares it without a look at the
/// text, which lies anywhere in memory.
#[derive(Drop)]
pub struct NameKey<'a> {
    stored: Stored<'a>,
}

impl<'a> Model for NameKey<'a> {
    ghost use Rattle.std.specs.Prelude.{ℕ, List};
    ghost use Rattle.key_hashes.specs.Stored.{bytes_of};

    ghost Value = { List ℕ };

    ghost view = { λ k. bytes_of k.stored };
}

impl<'a> NameKey<'a> {
    /// The key of a name.
    pub fn of(name: &'a [u8]) -> NameKey<'a>
        ensures { result ≡ name.now }
    {
        let stored = if name.len() <= FEW {
            Stored::Short(ShortName::of(name))
        } else {
            Stored::Lent(name)
        };
        NameKey { stored }
    }

    /// The name.
    pub fn as_slice(&self) -> &[u8]
        ensures { result.now ≡ self.now }
    {
        match &self.stored {
            Stored::Short(name) => name.as_slice(),
            Stored::Lent(name) => name,
        }
    }
}

impl PartialEq for NameKey<'_> {
    ghost eq = { λ k l. pointwise nat_eq k l };

    ghost laws = { on_per (λ k. k) (partial_equiv_from_equiv nat_list_eq_equiv) };

    fn eq(&self, other: &Self) -> bool {
        self.as_slice() == other.as_slice()
    }
}

impl Eq for NameKey<'_> {
    ghost laws = { on_equiv (λ k. k) nat_list_eq_equiv };
}

// The name is written whole: sixteen bytes take one step, where the hash of a slice takes a step for each byte.
impl Hash for NameKey<'_> {
    ghost hash_input = { λ k. k ∷ [] };

    ghost respects_eq = { Prim.search (hashing, rules) };

    fn hash<H: Hasher>(&self, state: &mut H) {
        state.write(self.as_slice());
    }
}
