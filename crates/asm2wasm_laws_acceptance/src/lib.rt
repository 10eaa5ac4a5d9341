//! The module of WebAssembly that a module of asm.js is translated to: its functions and its table, how
//! it is called, that it is valid and can be read and run, and which scripts fit it.
#![tactic(auto)]

pub mod exports_laws;

ghost use Rattle.asm2wasm_laws_acceptance.specs.Laws.{FunctionsAreCounted, FunctionsAreAsMany, FunctionsHaveTypes, ImportsHaveTypes, ContextsAreKnown, BodiesAreValid, TranslationIsCalled, FunctionsAreCalled, ImportsAreCalled, TablesAreFilled, CallsAreMade, TranslationIsValid, TranslationIsWithin, TranslationIsRunnable, ScriptsFit};
ghost use Rattle.asm2wasm_laws_acceptance.specs.Scripts.{ScriptsFitBack};

/// Functions, by number.
pub fn functions()
    ensures counted { FunctionsAreCounted }
    ensures as_many { FunctionsAreAsMany }
    ensures own { FunctionsHaveTypes }
    ensures imported { ImportsHaveTypes }
{}

/// Bodies, each valid in its context.
pub fn bodies()
    ensures contexts { ContextsAreKnown }
    ensures valid { BodiesAreValid }
{}

/// What the module imports and exports is what the text asks for.
pub fn calling()
    ensures { TranslationIsCalled }
{}

/// What calls find: functions by number and the entries of the table.
pub fn calls()
    ensures functions { FunctionsAreCalled }
    ensures imports { ImportsAreCalled }
    ensures table { TablesAreFilled }
    ensures made { CallsAreMade }
{
    wasm_laws_trees::spellings();
    asm2wasm_lang::tables_end_to_end();
}

/// The module is valid.
pub fn validity()
    ensures { TranslationIsValid }
{
    asm2wasm_lang::heap_lengths();
}

/// The module is one that a reader takes.
pub fn limits()
    ensures { TranslationIsWithin }
{
    wasm_laws_trees::spellings();
}

/// The module can be run.
pub fn runnable()
    ensures { TranslationIsRunnable }
{
    asm2wasm_lang::heap_lengths();
}

/// A script that fits the text fits the module. One that fits the module fits the text, with the names of the text and with the part
/// of each byte write that lies in the heap.
pub fn scripts()
    ensures there { ScriptsFit }
    ensures back { ScriptsFitBack }
{
    asm2wasm_lang::heap_lengths();
    asm_laws_print::well_formed_modules();
}
