//! The ids of the spaces of a module.

ghost use Rattle.std.specs.Prelude.{◌≡◌, ◌++◌, [], OnOk};
ghost use Rattle.wat_marks.specs.Views.{marked_of};
ghost use Rattle.wat_read_names.specs.Bound.{seed_with, HasNames};

use crate::ids::Ids;
use crate::lists::Bound;
use key_hashes::{KeyHashes, Seed};
use std::alloc::{AllocError, Global};
use wat_grammar::Mark;
use wat_marks::MarkedToken;
use wat_read_tokens::atom;

/// The ids of each space of a module.
pub struct Spaces<'a> {
    pub types: Ids<'a>,
    pub functions: Ids<'a>,
    pub tables: Ids<'a>,
    pub memories: Ids<'a>,
    pub globals: Ids<'a>,
    pub elements: Ids<'a>,
    pub segments: Ids<'a>,
}

/// By hand, so that the end of all ids is one call.
impl Drop for Spaces<'_> {
    fn drop(self) {
        let Spaces {
            types: _,
            functions: _,
            tables: _,
            memories: _,
            globals: _,
            elements: _,
            segments: _,
        } = self;
    }
}

/// A seed for hashers of ids, with the id that a token binds, if it binds one.
pub fn add_id(seed: &mut Seed, token: &MarkedToken<'_>)
    ensures { seed.new ≡ seed_with seed.old (marked_of token.now) }
{
    if let Mark::Binds(_) = token.mark {
        seed.add(atom(token));
    }
}

/// Puts the ids of a space in, which are taken out of its lists.
pub fn bind<'a>(
    ids: &mut Ids<'a>,
    bound: &mut Bound<'a>,
    alloc: Global,
    hashes: KeyHashes,
) -> Result<(), AllocError>
    ensures { OnOk result (ids.new ≡ bound.old.imported ++ bound.old.defined) }
{
    *ids = bound.taken(alloc, hashes)?;
    Ok(())
}

impl<'a> Spaces<'a> {
    /// Spaces without ids.
    pub fn empty(alloc: Global, hashes: KeyHashes) -> Spaces<'a>
        ensures { HasNames result [] }
    {
        Spaces {
            types: Ids::unnamed(alloc, hashes, 0),
            functions: Ids::unnamed(alloc, hashes, 0),
            tables: Ids::unnamed(alloc, hashes, 0),
            memories: Ids::unnamed(alloc, hashes, 0),
            globals: Ids::unnamed(alloc, hashes, 0),
            elements: Ids::unnamed(alloc, hashes, 0),
            segments: Ids::unnamed(alloc, hashes, 0),
        }
    }
}
