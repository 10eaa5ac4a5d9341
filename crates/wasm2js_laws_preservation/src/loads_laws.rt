//! From WebAssembly to asm.js: instructions that load from the memory, whose code gives what they give, or traps where they trap.

ghost use Rattle.wasm2js_laws_preservation.specs.LoadsLaws.{LoadsAreRead};

/// Loads of one, two, four and eight bytes.
pub fn loads()
    ensures { LoadsAreRead }
{}
