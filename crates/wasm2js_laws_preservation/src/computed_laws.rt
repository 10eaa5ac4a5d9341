//! From WebAssembly to asm.js: each instruction that doesn't access the memory is kept, and code where accesses and calls are.

ghost use Rattle.wasm2js_laws_preservation.specs.ComputedLaws.{EachIs, EachIsKept, AllIsKept};

/// Each instruction but accesses to the memory, by itself and in its code.
pub fn instructions()
    ensures computed { EachIs }
    ensures kept { EachIsKept }
{}

/// All code, where accesses to the memory and calls are kept.
pub fn code()
    ensures { AllIsKept }
{}
