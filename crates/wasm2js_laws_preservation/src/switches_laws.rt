//! From WebAssembly to asm.js: branches by an index.

ghost use Rattle.wasm2js_laws_preservation.specs.SwitchesLaws.{IndexedBranchesAreKept};

/// A branch by an index, which is unsigned, as switches one after the other.
pub fn switches()
    ensures { IndexedBranchesAreKept }
{}
