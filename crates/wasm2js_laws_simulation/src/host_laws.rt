//! From WebAssembly to asm.js: the calls of a script, where what they come to follows.

ghost use Rattle.wasm2js_laws_simulation.specs.HostLaws.{HostCallsFollow};

/// One after the other, from a place where `$init` is back.
pub fn host_calls()
    ensures { HostCallsFollow }
{}
