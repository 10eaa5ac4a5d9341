//! Calls of the standard library, and the places of a table's entries.
ghost use Rattle.std.specs.Prelude.{◌≡◌, ◌++◌, OnOk};
ghost use Rattle.wasm_laws_trees.specs.Spelled.{flat};
ghost use Rattle.wasm_laws_write.specs.Lengths.{IsNarrow};
ghost use Rattle.wasm_laws_write.specs.Each.{EachIn};
ghost use Rattle.asm2wasm_translation.specs.Values as code;

use crate::output::Output;
use asm_lang_valid::Builtin;
use sem_words::{Bin, Un};
use std::alloc::AllocError;
use wasm_tree::Instr;

/// A function of the standard library of the arguments on the stack.
pub fn builtin(output: &mut Output, builtin: Builtin) -> Result<(), AllocError>
    ensures { OnOk result (output.new ≡ output.old ++ flat (code.builtin_code builtin)) }
{
    match builtin {
        Builtin::Imul => output.push(Instr::Bin32(Bin::Mul)),
        Builtin::Clz32 => output.push(Instr::Un32(Un::Clz)),
    }
}

/// The entry of the index on the stack, in a table whose entries begin at `base`.
pub fn from_base(output: &mut Output, base: usize) -> Result<(), AllocError>
    requires narrow { EachIn IsNarrow (code.plains (code.from_base base)) }
    ensures { OnOk result (output.new ≡ output.old ++ flat (code.plains (code.from_base base))) }
{
    if base == 0 {
        return Ok(());
    }
    output.number(base)?;
    output.push(Instr::Bin32(Bin::Add))
}
