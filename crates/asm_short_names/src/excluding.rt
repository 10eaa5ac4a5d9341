//! Which numbers are left out besides those of forbidden names.

ghost use Rattle.std.specs.Prelude.{◌≡◌};
ghost use Rattle.asm_short_lang.specs.Sequence.{numbered};
ghost use Rattle.asm_short_names.specs.Excluding.{excludes, is_kept};

use crate::letters::spelled;
use indexmap::IndexSet;
use key_hashes::KeyHashes;

/// Numbers that are left out, and the one of a name that is kept.
#[derive(Clone, Copy)]
pub struct Excluded<'e> {
    pub numbers: &'e IndexSet<u64, KeyHashes>,
    pub kept: Option<&'e [u8]>,
}

impl Excluded<'_> {
    /// Whether a number is left out.
    pub fn has(&self, number: u64) -> bool
        ensures { result ≡ excludes self.now number }
    {
        self.numbers.contains(&number) || is_kept(self.kept, number)
    }
}

fn is_kept(kept: Option<&[u8]>, number: u64) -> bool
    ensures { result ≡ is_kept kept.entry (numbered number) }
{
    match kept {
        None => false,
        Some(name) => name == spelled(number).as_bytes(),
    }
}
