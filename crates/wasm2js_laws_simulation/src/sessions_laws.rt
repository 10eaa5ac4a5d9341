//! From WebAssembly to asm.js: whole sessions simulate each other, where calls follow.

ghost use Rattle.wasm2js_laws_simulation.specs.SessionsLaws.{SessionsAreFollowed, SessionsSimulate, SessionsAreBounded, TranslationsAreAllowed, TranslationsAreBounded};

/// Of a module that is ready at a pace: each session of its translation follows that of the module.
pub fn sessions()
    ensures followed { SessionsAreFollowed }
    ensures simulate { SessionsSimulate }
    ensures bounded { SessionsAreBounded }
{
    crate::instances_laws::stores();
}

/// The translation of such a module may be written for it, and at a pace of 256 its units are bounded.
pub fn translations()
    ensures allowed { TranslationsAreAllowed }
    ensures bounded { TranslationsAreBounded }
{
    crate::instances_laws::stores();
}
