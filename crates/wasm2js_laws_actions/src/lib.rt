//! From WebAssembly to asm.js: straight code does on asm.js's places what it does on words.
#![tactic(auto)]

ghost use Rattle.wasm2js_laws_actions.specs.Laws.{TermsAreRead, IntsAreRead, ArgumentsAreRead, ActionsAreDone, ActionsAreFollowed, LateAsksHelpers, LeanAsksHelpers, WrittenAsksNone};

/// A term's value has the term's word.
pub fn terms()
    ensures as_it_is { TermsAreRead }
    ensures as_int { IntsAreRead }
    ensures several { ArgumentsAreRead }
{}

/// Actions come to their words and their heap, or to their trap, with their units.
pub fn actions()
    ensures done { ActionsAreDone }
    ensures followed { ActionsAreFollowed }
{}

/// Which functions code calls whose words are written late, and code without the tests that are needless.
pub fn waiting()
    ensures late { LateAsksHelpers }
    ensures lean { LeanAsksHelpers }
    ensures written { WrittenAsksNone }
{}
