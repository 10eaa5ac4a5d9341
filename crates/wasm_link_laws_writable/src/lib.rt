//! The module that a pair is linked to is shaped, and the binary format has room for it.
#![tactic(auto)]

ghost use Rattle.wasm_link_laws_writable.specs.Laws.{LinkedIsShaped, LinkedIsWritable};

/// Where both of the pair are shaped it is shaped, and where both are spelled in at most 2 ^ 24 bytes it is writable.
pub fn writable()
    ensures shaped { LinkedIsShaped }
    ensures writable { LinkedIsWritable }
{}
