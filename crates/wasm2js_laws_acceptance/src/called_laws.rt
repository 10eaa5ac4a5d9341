//! From WebAssembly to asm.js: a translated module is called, and calls its host, as is asked.

ghost use Rattle.wasm2js_laws_acceptance.specs.CalledLaws.{TranslationsAreCalled, TranslationsFit};

/// A translated module has the exports, imports and heap that are asked for, and takes each script that its source takes.
pub fn calling()
    ensures called { TranslationsAreCalled }
    ensures fits { TranslationsFit }
{}
