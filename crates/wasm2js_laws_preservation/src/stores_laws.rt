//! From WebAssembly to asm.js: the helper functions that write the memory, and instructions that store to it.

ghost use Rattle.wasm2js_laws_preservation.specs.StoresLaws.{StoreWordHelps, StoreWordsHelp, WritesWord, WritesWords, StoresAreWritten};

/// Words of 32 and of 64 bits, written byte by byte at any place.
pub fn helpers()
    ensures word { StoreWordHelps }
    ensures words { StoreWordsHelp }
    ensures word_written { WritesWord }
    ensures words_written { WritesWords }
{}

/// Stores of one, two, four and eight bytes.
pub fn stores()
    ensures { StoresAreWritten }
{}
