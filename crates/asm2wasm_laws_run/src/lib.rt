//! Runs of asm.js and reductions of the code that they are translated to: simulation with costs, and
//! straight-line code with its guards.
#![tactic(auto)]

ghost use Rattle.asm2wasm_laws_run.specs.Laws.{RunsStraight, RunsChoice, StoresGuarded};

/// Code without blocks, branches and calls, all of it at once; and a choice between two such pieces.
pub fn straight_code()
    ensures runs { RunsStraight }
    ensures chooses { RunsChoice }
{}

/// A store writes inside the heap alone, and leaves the place of its element and its value in two locals.
pub fn guarded_stores()
    ensures { StoresGuarded }
{}
