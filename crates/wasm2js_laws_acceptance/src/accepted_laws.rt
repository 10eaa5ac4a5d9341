//! From WebAssembly to asm.js: what a module is translated to is accepted, and can be printed and read again.

ghost use Rattle.wasm2js_laws_acceptance.specs.AcceptedLaws.{TranslationsAreTyped, TranslationsAreAccepted, TranslationsAreWellFormed, SpelledAreSources};

/// A translated module is typed, meets no row of a refusal, and is well formed.
pub fn acceptance()
    ensures typed { TranslationsAreTyped }
    ensures accepted { TranslationsAreAccepted }
    ensures well_formed { TranslationsAreWellFormed }
{}

/// A module that was read has all that is asked of the source.
pub fn sources()
    ensures { SpelledAreSources }
{}
