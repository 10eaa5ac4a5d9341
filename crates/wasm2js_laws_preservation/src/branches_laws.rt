//! From WebAssembly to asm.js: branches, returns and traps.

ghost use Rattle.wasm2js_laws_preservation.specs.BranchesLaws.{BranchesAreKept};

/// A branch, perhaps on a condition, a return, and what is unreachable.
pub fn branches()
    ensures { BranchesAreKept }
{}
