//! Expressions of asm.js, and the code that keeps what they do: from each place of a function's run the
//! reductions of the code show the run of the expression.
#![tactic(auto)]

ghost use Rattle.asm2wasm_laws_preservation.specs.Laws.{AllCallsAreKept, ExpressionsAreKept, CallsAreKept, EffectsAreKept};

/// Each expression of each form, at each depth of calls of table entries, where the calls themselves
/// are kept.
pub fn expressions()
    ensures typed { ExpressionsAreKept }
    ensures calls { CallsAreKept }
    ensures effects { EffectsAreKept }
{}

/// Calls of foreign functions are kept by those of imports, and calls of a table's members by those of
/// its entries, in a module with these imports, types and entries.
pub fn calls()
    ensures { AllCallsAreKept }
{}
