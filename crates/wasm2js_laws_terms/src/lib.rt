//! From WebAssembly to asm.js: straight code is typed, can be printed, is low, and calls nothing foreign but the trap.
#![tactic(auto)]

ghost use Rattle.wasm2js_laws_terms.specs.Laws.{TermsAreFine, ActionsAreFine, StatementsAreFine};

/// Terms as expressions.
pub fn terms()
    ensures { TermsAreFine }
{}

/// Actions as statements, one by one and in a row.
pub fn actions()
    ensures single { ActionsAreFine }
    ensures several { StatementsAreFine }
{}
