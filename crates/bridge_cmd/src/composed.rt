//! From asm.js to WebAssembly and back.
ghost use Rattle.wasm2js_lang.specs.RoundTrips.{RoundTripsSimulate};
ghost use Rattle.bridge_lang.specs.RoundTrips.{WrittenBackSimulate};

/// What is translated to WebAssembly and back behaves as what it was: each module that may be written so, and each text that the
/// commands write.
pub fn round_trips()
    ensures modules { RoundTripsSimulate }
    ensures texts { WrittenBackSimulate }
{
    wasm2js_laws_scripts::round_trip_laws::round_trips();
}
