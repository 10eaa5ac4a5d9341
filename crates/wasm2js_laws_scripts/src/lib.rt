//! From WebAssembly to asm.js: scripts that fit the one fit the other, and the heap begins with the memory.
#![tactic(auto)]

pub mod round_trip_laws;

ghost use Rattle.wasm2js_laws_scripts.specs.Laws.{ShapesAreFound, ShapedExportsAreBytes, ScriptsFit, HeapsBegin};

/// A module that is called as asked takes each script that fits, and begins with the memory that it has.
pub fn scripts()
    ensures shapes { ShapesAreFound }
    ensures names { ShapedExportsAreBytes }
    ensures fit { ScriptsFit }
    ensures heaps { HeapsBegin }
{}
