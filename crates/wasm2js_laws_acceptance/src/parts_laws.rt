//! From WebAssembly to asm.js: the functions, tables and imports of a translated module.

ghost use Rattle.wasm2js_laws_acceptance.specs.PartsLaws.{TranslationsHaveFunctions, TranslationsHaveTables, TranslationsHaveImports};

/// A translated module has the functions, tables and imports that are asked for, in order, and no others.
pub fn parts()
    ensures functions { TranslationsHaveFunctions }
    ensures tables { TranslationsHaveTables }
    ensures imports { TranslationsHaveImports }
{}
