//! From WebAssembly to asm.js: calls of functions with bodies follow.

ghost use Rattle.wasm2js_laws_simulation.specs.FramesLaws.{BodiesAreHelped, FunctionsFollow};

/// Helpers in bodies.
pub fn bodies()
    ensures { BodiesAreHelped }
{}

/// All functions, however deep calls lie.
pub fn functions()
    ensures { FunctionsFollow }
{}
