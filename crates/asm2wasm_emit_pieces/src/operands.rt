//! Prefix operators and the links of a chain.
ghost use Rattle.std.specs.Prelude.{◌≡◌, ◌++◌, OnOk};
ghost use Rattle.wasm_laws_trees.specs.Spelled.{flat};
ghost use Rattle.wasm_lang.specs.Instructions.{bin32};
ghost use Rattle.asm2wasm_translation.specs.Values as code;

use crate::output::Output;
use sem_words::{Bin, JsUnary};
use std::alloc::AllocError;
use wasm_tree::Instr;

/// What a prefix operator has before its operand.
pub fn before_operand(output: &mut Output, op: JsUnary) -> Result<(), AllocError>
    ensures { OnOk result (output.new ≡ output.old ++ flat (code.before_operand op)) }
{
    match op {
        JsUnary::Neg => output.number(0),
        JsUnary::BitNot => output.number(0xffff_ffff),
        JsUnary::Not | JsUnary::Plus => Ok(()),
    }
}

/// What a prefix operator has after its operand.
pub fn after_operand(output: &mut Output, op: JsUnary) -> Result<(), AllocError>
    ensures { OnOk result (output.new ≡ output.old ++ flat (code.after_operand op)) }
{
    match op {
        JsUnary::Neg | JsUnary::BitNot => output.push(Instr::Bin32(Bin::Sub)),
        JsUnary::Not => output.push(Instr::Eqz32),
        JsUnary::Plus => output.push(Instr::Unreachable),
    }
}

/// What follows a further operand of a chain: it is subtracted or added.
pub fn link(output: &mut Output, minus: bool) -> Result<(), AllocError>
    ensures { OnOk result (output.new ≡ output.old ++ flat (code.one (bin32 (code.link_operator minus)))) }
{
    if minus {
        output.push(Instr::Bin32(Bin::Sub))
    } else {
        output.push(Instr::Bin32(Bin::Add))
    }
}
