//! From WebAssembly to asm.js: the statements of segments store their bytes.

ghost use Rattle.wasm2js_laws_simulation.specs.SegmentsLaws.{SegmentsAreStored};

/// By calls that write sixteen words each, by words and by bytes.
pub fn segments()
    ensures { SegmentsAreStored }
{}
