//! asm.js: typed code uses names rightly.

ghost use Rattle.asm_laws_sound.specs.UsesLaws.{ExpressionsUseNames, EffectsUseNames, StatementsUseNames, FunctionsUseNames};

/// What is typed uses declared names alone, each for what it means: the rows of names have nothing to say of it.
pub fn uses_of_names()
    ensures expressions { ExpressionsUseNames }
    ensures effects { EffectsUseNames }
    ensures statements { StatementsUseNames }
    ensures functions { FunctionsUseNames }
{}
