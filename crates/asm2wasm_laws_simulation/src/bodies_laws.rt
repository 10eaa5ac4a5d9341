//! Statements of asm.js of every form, and bodies of functions in their frames, with the code that keeps
//! what they do. Calls of functions, which put these together, aren't here.

ghost use Rattle.asm2wasm_laws_simulation.specs.Bodies.Laws.{StatementsAreKept, ListsAreKept, BodiesAreKept, LocalsAreSet};

/// From each place of a function's run, the reductions of a statement's code show its run: they end as
/// values, as a branch or as a return, by how the statement completes.
pub fn statements()
    ensures each { StatementsAreKept }
    ensures lists { ListsAreKept }
{}

/// The code of a body leaves the function's result to its caller, by a return or without one;
/// before it, locals get their first values.
pub fn bodies()
    ensures kept { BodiesAreKept }
    ensures locals { LocalsAreSet }
{}
