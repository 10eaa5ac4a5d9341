//! From WebAssembly to asm.js: code is kept where those accesses to the memory that occur in it are.

ghost use Rattle.wasm2js_laws_preservation.specs.OccurringLaws.{OccurringAreKept, NoneInTrees};

/// All code, where the accesses to the memory in it and calls are kept.
pub fn occurring()
    ensures { OccurringAreKept }
{}

/// What no instruction of an expression is, none of its tree is.
pub fn trees()
    ensures { NoneInTrees }
{}
