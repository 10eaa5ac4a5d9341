//! From WebAssembly to asm.js: calls of imported functions follow, and so do all calls.

ghost use Rattle.wasm2js_laws_simulation.specs.ImportsLaws.{ImportedFollow, AllFollow};

/// Imported functions, by their wrappers.
pub fn imports()
    ensures { ImportedFollow }
{}

/// All functions of a module, however deep calls lie.
pub fn all_calls()
    ensures { AllFollow }
{}
