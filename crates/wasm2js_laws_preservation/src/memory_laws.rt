//! From WebAssembly to asm.js: accesses to the memory are kept, and so is all code whose calls are.

ghost use Rattle.wasm2js_laws_preservation.specs.MemoryLaws.{AccessesAreKept, AllIsKept};

/// Loads, stores, copies and fills.
pub fn accesses()
    ensures { AccessesAreKept }
{}

/// All code, where calls are kept.
pub fn code()
    ensures { AllIsKept }
{}
