//! Trees of code of WebAssembly as they are spelled: their sizes, levels, locals and types.
#![tactic(auto)]

ghost use Rattle.wasm_laws_trees.specs.Laws.{FlatJoins, SizesAdd, LevelsJoin, ReachJoins, TypesJoin, IsReadAgain, IsWellNested, SizeBoundsLength, LevelsAreKept, TypedIsValid};

/// One piece of code after another.
pub fn sequences()
    ensures spelled { FlatJoins }
    ensures sizes { SizesAdd }
    ensures levels { LevelsJoin }
    ensures locals { ReachJoins }
    ensures types { TypesJoin }
{}

/// The spelling of a tree is an expression, of which the tree is read again.
pub fn spellings()
    ensures again { IsReadAgain }
    ensures nested { IsWellNested }
    ensures size { SizeBoundsLength }
    ensures levels { LevelsAreKept }
{}

/// A typed tree is a valid body.
pub fn validity()
    ensures { TypedIsValid }
{}
