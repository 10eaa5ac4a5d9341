//! A pair of modules of which the second is empty.
#![tactic(auto)]

ghost use Rattle.wasm_link_laws_alone.specs.Laws.{PairsAreAlone};

/// A pair of a valid module and an empty one shows, with each script and after each number of reductions, what the module
/// shows by itself: so what a pair means is what a module means, and nothing beside it.
pub fn empty_second()
    ensures alone { PairsAreAlone }
{}
