//! From WebAssembly to asm.js: calls of the functions of a translated module follow.

ghost use Rattle.wasm2js_laws_simulation.specs.FollowedLaws.{SettledCallsFollow, HostedCallsAreFollowed, UnmovedCallsAreFollowed};

/// In a session that is settled, from any caller.
pub fn settled()
    ensures { SettledCallsFollow }
{}

/// From the host, in both parts of a session.
pub fn hosted()
    ensures moving { HostedCallsAreFollowed }
    ensures unmoved { UnmovedCallsAreFollowed }
{}
