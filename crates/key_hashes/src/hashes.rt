// What makes hashers.

use std::hash::{BuildHasher, FoldHasher};

/// Makes the hashers of a map: each begins as the first does, which was fed a seed.
#[derive(Clone, Copy, Drop)]
pub struct KeyHashes {
    pub(crate) first: FoldHasher,
}

impl BuildHasher for KeyHashes {
    type Hasher = FoldHasher;

    ghost build_hasher = { λ s. s.first };

    fn build_hasher(&self) -> FoldHasher {
        self.first
    }
}
