//! Quotients and remainders, which no divisor traps. The operands stand on the stack, and wait in scratch locals.
ghost use Rattle.std.specs.Prelude.{◌≡◌, ◌<◌, ◌^◌, [], ◌∷◌, ◌++◌, OnOk};
ghost use Rattle.wasm_lang.specs.Instructions.{plain, local_get, bin32};
ghost use Rattle.wasm_laws_trees.specs.Spelled.{flat};
ghost use Rattle.wasm_laws_write.specs.Lengths.{IsNarrow};
ghost use Rattle.wasm_laws_write.specs.Each.{EachIn};
ghost use Rattle.asm2wasm_translation.specs.Values as code;

use crate::output::Output;
use sem_words::{Bin, Rel};
use std::alloc::AllocError;
use wasm_lang::ValType;
use wasm_tree::Instr;

/// The quotient of two unsigned or signed operands.
pub fn quotient(output: &mut Output, unsigned: bool, x: usize, y: usize) -> Result<(), AllocError>
    requires narrow { EachIn IsNarrow (code.quotient unsigned x y) }
    ensures { OnOk result (output.new ≡ output.old ++ flat (code.quotient unsigned x y)) }
{
    if unsigned {
        guarded(output, x, y, Bin::DivU)
    } else {
        signed_quotient(output, x, y)
    }
}

/// An operator that gives 0 for the divisor 0.
pub fn guarded(output: &mut Output, x: usize, y: usize, op: Bin) -> Result<(), AllocError>
    requires narrow { EachIn IsNarrow (code.guarded x y op) }
    ensures { OnOk result (output.new ≡ output.old ++ flat (code.guarded x y op)) }
{
    output.local_set(y)?;
    output.local_set(x)?;
    output.local_get(y)?;
    output.push(Instr::If(Some(ValType::I32)))?;
    computed(output, x, y, op)?;
    output.push(Instr::Else)?;
    output.number(0)?;
    output.push(Instr::End)
}

// Where the divisor is 0 or -1 the quotient is the product.
fn signed_quotient(output: &mut Output, x: usize, y: usize) -> Result<(), AllocError>
    requires narrow { EachIn IsNarrow (code.signed_quotient x y) }
    ensures { OnOk result (output.new ≡ output.old ++ flat (code.signed_quotient x y)) }
{
    output.local_set(y)?;
    output.local_set(x)?;
    output.local_get(y)?;
    output.number(1)?;
    output.push(Instr::Bin32(Bin::Add))?;
    output.number(1)?;
    output.push(Instr::Rel32(Rel::GtU))?;
    output.push(Instr::If(Some(ValType::I32)))?;
    computed(output, x, y, Bin::DivS)?;
    output.push(Instr::Else)?;
    computed(output, x, y, Bin::Mul)?;
    output.push(Instr::End)
}

// The operator on two locals.
fn computed(output: &mut Output, x: usize, y: usize, op: Bin) -> Result<(), AllocError>
    requires first { x < 2 ^ 32 }
    requires second { y < 2 ^ 32 }
    ensures { OnOk result (output.new ≡ output.old ++ plain (local_get x) ∷ plain (local_get y) ∷ plain (bin32 op) ∷ []) }
{
    output.local_get(x)?;
    output.local_get(y)?;
    output.push(Instr::Bin32(op))
}
