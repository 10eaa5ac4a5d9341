//! From WebAssembly to asm.js: the helper functions that fill and copy runs of bytes, by their loops, and the instructions that call them.

ghost use Rattle.wasm2js_laws_preservation.specs.RunsLaws.{FillHelps, CopyHelps, FillIsDone, CopyIsDone};

/// Loops over words and bytes, upwards or downwards, after the tests of their runs.
pub fn helpers()
    ensures fill { FillHelps }
    ensures copy { CopyHelps }
{}

/// Fills and copies.
pub fn instructions()
    ensures fill { FillIsDone }
    ensures copy { CopyIsDone }
{}
