//! From WebAssembly to asm.js: instructions that open no block, in what surrounds them.

ghost use Rattle.wasm2js_laws_preservation.specs.InstructionsLaws.{PlainsAreKept};

/// Instructions that compute, read or write.
pub fn plains()
    ensures { PlainsAreKept }
{}
