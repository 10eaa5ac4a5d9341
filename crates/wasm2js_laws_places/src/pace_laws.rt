//! From WebAssembly to asm.js: runs of asm.js that keep pace with a session of WebAssembly.

ghost use Rattle.wasm2js_laws_places.specs.PaceLaws.{StepsArePaid, StandsStill, SameIsFollowed, FreeUnits, UnpaidStops, FollowedFromTheStart};

/// What is left of a run of asm.js follows what is left of a session of WebAssembly, reduction by reduction.
pub fn following()
    ensures step { StepsArePaid }
    ensures stands { StandsStill }
    ensures same { SameIsFollowed }
    ensures free { FreeUnits }
    ensures unpaid { UnpaidStops }
    ensures followed { FollowedFromTheStart }
{}
