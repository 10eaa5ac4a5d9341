//! From WebAssembly to asm.js: the helper functions of a translated module, and that they do what is said of them.

ghost use Rattle.wasm2js_laws_simulation.specs.HelpingLaws.{WordsAreUsual, FixedNamesMean, HelpersHelp, BodiesHelp};
ghost use Rattle.wasm2js_laws_simulation.specs.HelpersLaws.{SourcesHaveHelpers};
ghost use Rattle.wasm2js_laws_simulation.specs.HelpingStanding.{HelpersStand, HelpersSupport, FunctionsAreHelped, AccessesAreKept};

/// What helpers do on words, and what each name means that is the same in all modules.
pub fn helpers()
    ensures words { WordsAreUsual }
    ensures names { FixedNamesMean }
{}

/// Calls of each, however deep calls may lie.
pub fn calls()
    ensures any { HelpersHelp }
    ensures bodies { BodiesHelp }
{}

/// Functions that stand for those of the source: these are their helpers, with which instructions are kept, also those that access the memory.
pub fn functions()
    ensures helpers { HelpersStand }
    ensures supported { HelpersSupport }
    ensures helped { FunctionsAreHelped }
    ensures accesses { AccessesAreKept }
{}

/// What a source is translated to has the helpers for words of 64 bits, by name, and no call of them goes wrong.
pub fn wide_helpers()
    ensures { SourcesHaveHelpers }
{}
