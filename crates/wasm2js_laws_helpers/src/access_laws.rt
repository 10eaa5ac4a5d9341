//! The helper functions of what WebAssembly is translated to that read the memory do what they mean.

ghost use Rattle.wasm2js_laws_helpers.specs.Access.Laws.{LoadWordHelps, LoadWordsHelp, ReadsWord, ReadsWords};

/// Words of 32 and of 64 bits, read byte by byte at any place.
pub fn loads()
    ensures word { LoadWordHelps }
    ensures words { LoadWordsHelp }
    ensures word_read { ReadsWord }
    ensures words_read { ReadsWords }
{}
