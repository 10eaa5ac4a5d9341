//! From WebAssembly to asm.js: what each module of the profile is translated to may be written for it.

ghost use Rattle.wasm2js_laws_simulation.specs.WholeLaws.{SourcesAreReady, SourcesAreAllowed, TrapsOfSourcesAreCalls, SpelledAreAllowed, TrapsOfSpelledAreCalls};

/// The translation of a source is allowed, and its traps are calls of the trap import.
pub fn translations()
    ensures ready { SourcesAreReady }
    ensures allowed { SourcesAreAllowed }
    ensures traps { TrapsOfSourcesAreCalls }
{
    crate::sessions_laws::translations();
    wasm2js_lang::traps_of_the_allowed();
}

/// .. and so is that of a module that some bytes spell, valid and in the profile.
pub fn spelled()
    ensures allowed { SpelledAreAllowed }
    ensures traps { TrapsOfSpelledAreCalls }
{
    crate::sessions_laws::translations();
    wasm2js_lang::traps_of_the_allowed();
}
