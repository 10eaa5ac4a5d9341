//! From WebAssembly to asm.js: blocks, loops, ifs and branches.

ghost use Rattle.wasm2js_laws_preservation.specs.ControlLaws.{CodeIsKept};

/// All code is kept where its instructions are.
pub fn control()
    ensures { CodeIsKept }
{}
