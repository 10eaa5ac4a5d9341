//! The translation of a small module of asm.js is a module that the translator from WebAssembly takes.
#![tactic(auto)]

ghost use Rattle.asm2wasm_translation.specs.Pieces.{continuing, small_elements, switching, few_cases, tabled};
ghost use Rattle.asm2wasm_lang.specs.Small.{IsSmall};
ghost use Rattle.asm2wasm_laws_profile.specs.Laws.{PeakIsBelowLength, FunctionsAreFlat, FunctionsAreLight, NothingIsForeign, TranslationIsInProfile};

/// Each instruction leaves at most one operand more than stood before it.
pub fn operands()
    ensures { PeakIsBelowLength }
{}

/// Where a function has no switch, blocks lie at most four deep for each level of its text.
pub fn levels()
    ensures { FunctionsAreFlat }
{}

/// Where a module has no table, its code calls no entry of one and makes nothing of two words of 64 bits.
pub fn instructions()
    ensures { FunctionsAreLight }
{}

/// A module without foreign members asks nothing of the foreign object.
pub fn imports()
    ensures { NothingIsForeign }
{}

/// What a small module is translated to is valid, and can be translated back.
pub fn profile()
    ensures { TranslationIsInProfile }
{
    wasm_laws_trees::spellings();
    asm2wasm_lang::heap_lengths();
}

/// A module of loops is small, and so is one of loads and stores; one with a switch isn't, and neither is one with a table.
pub fn worked()
    ensures loops { IsSmall continuing }
    ensures elements { IsSmall small_elements }
    ensures switches { IsSmall (switching few_cases) → ⊥ }
    ensures tables { IsSmall tabled → ⊥ }
{}
