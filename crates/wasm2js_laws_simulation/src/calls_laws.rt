//! From WebAssembly to asm.js: calls, where what they come to follows.

ghost use Rattle.wasm2js_laws_simulation.specs.CallsLaws.{CallsAreKept, IndirectCallsAreKept};

/// Calls of functions by their numbers, and of entries of the table.
pub fn calls()
    ensures by_number { CallsAreKept }
    ensures by_entry { IndirectCallsAreKept }
{}
