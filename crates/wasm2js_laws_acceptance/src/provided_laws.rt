//! From WebAssembly to asm.js: what the functions of a translated module are given to use.

ghost use Rattle.wasm2js_laws_acceptance.specs.ProvidedLaws.{GlobalsAreProvided, HelpersAreProvided, MemoryHelpersAreProvided, FunctionsAreProvided, ForeignAreProvided, HighIsForeign, TablesAreProvided, MembersAreAlike, ModulesProvide};

/// What the names of globals, functions and imported functions mean.
pub fn meanings()
    ensures globals { GlobalsAreProvided }
    ensures functions { FunctionsAreProvided }
    ensures foreign { ForeignAreProvided }
    ensures high { HighIsForeign }
{}

/// What the names of helpers mean that some instruction asks for, on words and on the memory.
pub fn helpers()
    ensures on_words { HelpersAreProvided }
    ensures on_memory { MemoryHelpersAreProvided }
{}

/// What the names of tables mean, and what stands in them.
pub fn called_entries()
    ensures named { TablesAreProvided }
    ensures members { MembersAreAlike }
{}

/// A function of the source, whatever its code, may use all that its context names.
pub fn whole_modules()
    ensures { ModulesProvide }
{}
