//! From asm.js to WebAssembly and back: the two translations compose.

ghost use Rattle.wasm2js_lang.specs.RoundTrips.{RoundTripsSimulate};

/// Whatever may be written for a module of asm.js as WebAssembly, and for that as asm.js, simulates the module.
pub fn round_trips()
    ensures { RoundTripsSimulate }
{}
