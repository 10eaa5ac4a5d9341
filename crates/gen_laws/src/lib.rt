//! The text of so many functions is accepted.
#![tactic(auto)]

ghost use Rattle.gen_laws.specs.Laws.{RecipesAreAccepted};

/// The text of so many functions is accepted.
pub fn recipes()
    ensures { RecipesAreAccepted }
{}
