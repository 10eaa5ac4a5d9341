//! Which modules the binary format of WebAssembly can spell, and in how many bytes at most.
#![tactic(auto)]

pub mod trees_laws;

ghost use Rattle.std.specs.Prelude.{ℕ};
ghost use Rattle.wasm_lang.specs.declared.types.Limits.{Limits};
ghost use Rattle.wasm_lang.specs.Modules.{FunctionType, Imported, GlobalEntry, Exported, ElementSegment, FunctionBody};
ghost use Rattle.wasm_laws_write.specs.Laws.{FittingAreWritable, NumbersAreShort, NarrowFit, InstructionsAreShort, CodeIsShort, BodiesAreShort, PartsAreShort, VectorsAreShort, TypesAreShort, ImportsAreShort, LimitsAreShort, GlobalsAreShort, ExportsAreShort, ElementsAreShort};

/// A shaped module is writable where its numbers and sections have room.
pub fn writable()
    ensures { FittingAreWritable }
{}

/// How many bytes numbers, parts and code take at most.
pub fn lengths()
    ensures numbers { NumbersAreShort }
    ensures parts { PartsAreShort }
    ensures narrow { NarrowFit }
    ensures instructions { InstructionsAreShort }
    ensures code { CodeIsShort }
    ensures bodies { BodiesAreShort }
{}

/// How many bytes what sections hold takes at most.
pub fn entries()
    ensures types { TypesAreShort }
    ensures imports { ImportsAreShort }
    ensures limits { LimitsAreShort }
    ensures globals { GlobalsAreShort }
    ensures exports { ExportsAreShort }
    ensures elements { ElementsAreShort }
{}

/// A vector takes at most what its items take, and five bytes for their count.
pub fn vectors()
    ensures types { VectorsAreShort FunctionType }
    ensures imports { VectorsAreShort Imported }
    ensures numbers { VectorsAreShort ℕ }
    ensures limits { VectorsAreShort Limits }
    ensures globals { VectorsAreShort GlobalEntry }
    ensures exports { VectorsAreShort Exported }
    ensures elements { VectorsAreShort ElementSegment }
    ensures bodies { VectorsAreShort FunctionBody }
{}
