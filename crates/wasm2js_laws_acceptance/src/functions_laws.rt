//! From WebAssembly to asm.js: each function of a translated module is typed, printable, low and within the limits.

ghost use Rattle.wasm2js_laws_acceptance.specs.FunctionsLaws.{OwnFunctionsAreFine, WrappersAreFine, StubsAreFine, InitIsFine, HighIsFine, HelpersAreFine, FunctionsAreFine};

/// The functions of the source, those with a body and those that are imported.
pub fn functions()
    ensures own { OwnFunctionsAreFine }
    ensures wrappers { WrappersAreFine }
{}

/// The helpers, what stands for missing entries, what a session begins with, and the function of the last high word.
pub fn further()
    ensures helpers { HelpersAreFine }
    ensures stubs { StubsAreFine }
    ensures init { InitIsFine }
    ensures high { HighIsFine }
{}

/// All functions of a translated module.
pub fn all()
    ensures { FunctionsAreFine }
{}
