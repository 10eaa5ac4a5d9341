//! From WebAssembly to asm.js: what names mean in the functions of a translated module.
#![tactic(auto)]

ghost use Rattle.wasm2js_laws_scopes.specs.Laws.{RoomIsDeclared, ModuleNamesAreSeen, VariablesAreOwn, HeadIsProvided, MemoryIsProvided};

/// A function's own variables are ints, those of its operands and of the source's locals that it names.
pub fn variables()
    ensures declared { RoomIsDeclared }
    ensures own { VariablesAreOwn }
    ensures seen { ModuleNamesAreSeen }
{}

/// What each function of a translated module may use of its head.
pub fn heads()
    ensures head { HeadIsProvided }
    ensures memory { MemoryIsProvided }
{}
