//! From WebAssembly to asm.js: the names of the result, and straight code over words.

ghost use Rattle.wasm2js_translation.specs.TermsLaws.{SpellingsDiffer, SpellingsAreUsable, RisingNamesAreNew, StatementsJoin};

/// Names are told apart by their spellings, which may be declared.
pub fn names()
    ensures differ { SpellingsDiffer }
    ensures usable { SpellingsAreUsable }
    ensures new { RisingNamesAreNew }
{}

/// Straight code goes piece by piece.
pub fn pieces()
    ensures { StatementsJoin }
{}
