//! Whole sessions of an accepted module of asm.js and of its translation: they simulate each other
//! within bounds, and those of the translation never trap.

ghost use Rattle.asm2wasm_laws_simulation.specs.Sessions.Laws.{SessionsAreMatched, SessionsNeverTrap, TranslationIsAllowed, TranslationIsBounded};

/// Each number of units has one of reductions by which both sessions show the same. No session of the translation ends with a trap,
/// whichever script fits it.
pub fn sessions()
    ensures matched { SessionsAreMatched }
    ensures no_traps { SessionsNeverTrap }
{
    asm2wasm_laws_acceptance::calls();
    asm2wasm_laws_acceptance::scripts();
    asm2wasm_lang::heap_lengths();
    asm_laws_print::well_formed_modules();
    crate::functions_laws::functions();
    crate::functions_laws::worth();
}

/// The translation may be written for its module, and its reductions are bounded by units.
pub fn translations()
    ensures allowed { TranslationIsAllowed }
    ensures bounded { TranslationIsBounded }
{
    asm2wasm_laws_acceptance::calls();
    asm2wasm_laws_acceptance::calling();
    asm2wasm_laws_acceptance::validity();
    asm2wasm_laws_acceptance::scripts();
    asm2wasm_lang::heap_lengths();
    asm_laws_print::well_formed_modules();
    crate::functions_laws::functions();
    crate::functions_laws::worth();
}
