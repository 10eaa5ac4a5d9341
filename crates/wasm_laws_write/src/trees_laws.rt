//! In how many bytes trees of code of WebAssembly are spelled, and that their spelling is shaped.

ghost use Rattle.wasm_lang.specs.Shape.{HasOpcode};
ghost use Rattle.wasm_laws_write.specs.Lengths.{IsNarrow};
ghost use Rattle.wasm_laws_write.specs.TreesLaws.{SizesAgree, TreesAreShort, TreesAreShaped, NarrowTreesFit, EachJoins};

use wasm_laws_trees::spellings;

/// A body takes at most seven bytes for each instruction.
pub fn sizes()
    ensures agree { SizesAgree }
    ensures short { TreesAreShort }
{}

/// A body whose instructions have opcodes and fit is an expression that does.
pub fn shapes()
    ensures shaped { TreesAreShaped }
    ensures fitting { NarrowTreesFit }
{
    spellings();
}

/// One piece of code after another.
pub fn joins()
    ensures opcodes { EachJoins HasOpcode }
    ensures narrow { EachJoins IsNarrow }
{}
