//! Calls of a translated module's own functions: at each depth they show what the text means, so that
//! nothing is left to ask of calls.

ghost use Rattle.asm2wasm_laws_simulation.specs.Functions.Laws.{FunctionsAreKept, CallsInModulesAreKept, NodesPay};

/// A call of a function enters its frame for a unit, and leaves the function's result on the caller's
/// stack; so does a call by a table, and a call of an import, once functions do.
pub fn functions()
    ensures own { FunctionsAreKept }
    ensures all { CallsInModulesAreKept }
{
    asm2wasm_laws_acceptance::calls();
}

/// What a unit is worth, by nodes and clauses.
pub fn worth()
    ensures { NodesPay }
{}
