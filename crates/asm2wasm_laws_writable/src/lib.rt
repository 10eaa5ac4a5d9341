//! The module of WebAssembly that an accepted text of asm.js is translated to can be written in the binary format: it is
//! shaped, its numbers have the bits that they need, and its sections are short enough.
#![tactic(auto)]

pub mod counts_laws;
pub mod opcodes_laws;

ghost use Rattle.asm2wasm_laws_writable.specs.Laws.{TypedNamesAreBelow, ClausesAreFew, ConstantsFit, FunctionsAreNarrow, TranslationIsShaped, TranslationsNumbersFit, TranslationsSectionsFit, ShortTextsAreShort, TranslationIsWritable};

/// The numbers of an instruction of a body are small.
pub fn code()
    ensures typed { TypedNamesAreBelow }
    ensures clauses { ClausesAreFew }
    ensures constants { ConstantsFit }
    ensures narrow { FunctionsAreNarrow }
{
    wasm_laws_trees::spellings();
    asm2wasm_lang::heap_lengths();
}

/// Names are UTF-8, and code is made of expressions whose instructions have opcodes.
pub fn shapes()
    ensures { TranslationIsShaped }
{
    wasm_laws_trees::spellings();
}

/// Numbers and sections have the room that they need.
pub fn rooms()
    ensures numbers { TranslationsNumbersFit }
    ensures sections { TranslationsSectionsFit }
{
    wasm_laws_trees::spellings();
    asm2wasm_lang::heap_lengths();
}

/// A text of at most 16,777,216 bytes says a module of few nodes and short names.
pub fn texts()
    ensures { ShortTextsAreShort }
{}

/// Some bytes spell what an accepted text is translated to.
pub fn writable()
    ensures { TranslationIsWritable }
{
    wasm_laws_trees::spellings();
    asm2wasm_lang::heap_lengths();
}
