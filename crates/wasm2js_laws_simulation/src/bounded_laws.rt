//! From WebAssembly to asm.js: how many units a reduction is worth, where no body copies or fills.

ghost use Rattle.wasm2js_laws_simulation.specs.BoundedLaws.{SourcesAreReady, SourcesAreBounded, SpelledAreBounded};

/// The steps of what a source is translated to are bounded.
pub fn translations()
    ensures ready { SourcesAreReady }
    ensures bounded { SourcesAreBounded }
{
    crate::sessions_laws::translations();
}

/// .. and so are those of what a module is translated to that some bytes spell, valid and in the profile.
pub fn spelled()
    ensures { SpelledAreBounded }
{
    crate::sessions_laws::translations();
}
