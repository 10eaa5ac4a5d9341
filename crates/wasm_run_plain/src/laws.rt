//! Laws, as contracts of functions that do nothing.
ghost use Rattle.wasm_lang.specs.Instructions.{Instruction};
ghost use Rattle.wasm_lang.specs.Shape.{HasOpcode};
ghost use Rattle.wasm_run_plain.specs.Forms.{IsForm};

/// An instruction that has an opcode, as each of a module that bytes spell, has a form.
pub fn opcodes_have_forms()
    ensures { (i : Instruction) → HasOpcode i → IsForm i }
{}
