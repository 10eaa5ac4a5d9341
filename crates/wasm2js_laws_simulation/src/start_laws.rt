//! From WebAssembly to asm.js: how a session begins, where what it comes to follows.

ghost use Rattle.wasm2js_laws_simulation.specs.StartLaws.{InitFollows};

/// `$init` does what instantiation and the start function do, and the calls of the script come after it.
pub fn session_start()
    ensures { InitFollows }
{}
