//! The module that two modules of WebAssembly over one memory are linked to, as a plain function.
#![tactic(auto)]

ghost use Rattle.wasm_link_code.specs.Laws.{FirstIsAddressed, IndirectStays};

/// Code with addresses in place of numbers: the first module's is as it was, and calls by an entry stay such calls.
pub fn addresses()
    ensures first { FirstIsAddressed }
    ensures indirect { IndirectStays }
{}
