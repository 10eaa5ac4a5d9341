//! Operators of two operands, which stand on the stack.
ghost use Rattle.std.specs.Prelude.{◌≡◌, ◌+◌, ◌++◌, suc, OnOk, if◌then◌else◌};
ghost use Rattle.wasm_laws_trees.specs.Spelled.{flat};
ghost use Rattle.wasm_laws_write.specs.Lengths.{IsNarrow};
ghost use Rattle.wasm_laws_write.specs.Each.{EachIn};
ghost use Rattle.asm2wasm_translation.specs.Values as code;

use crate::guards::{guarded, quotient};
use crate::output::Output;
use crate::scratch::Scratch;
use sem_words::{Bin, JsOp, Rel};
use std::alloc::AllocError;
use wasm_tree::Instr;

/// An operator, by whether an operand is unsigned.
pub fn operator(
    output: &mut Output,
    op: JsOp,
    unsigned: bool,
    scratch: Scratch,
) -> Result<(), AllocError>
    requires narrow { EachIn IsNarrow (code.operator op unsigned (scratch.first + scratch.depth) (scratch.first + suc scratch.depth)) }
    ensures { OnOk result (output.new ≡ output.old ++ flat (code.operator op unsigned (scratch.first + scratch.depth) (scratch.first + suc scratch.depth))) }
{
    match op {
        JsOp::Add => output.push(Instr::Bin32(Bin::Add)),
        JsOp::Sub => output.push(Instr::Bin32(Bin::Sub)),
        JsOp::Mul => output.push(Instr::Bin32(Bin::Mul)),
        JsOp::Div => quotient(output, unsigned, scratch.current(), scratch.following()),
        JsOp::Rem => guarded(
            output,
            scratch.current(),
            scratch.following(),
            remainder(unsigned),
        ),
        JsOp::Or => output.push(Instr::Bin32(Bin::Or)),
        JsOp::And => output.push(Instr::Bin32(Bin::And)),
        JsOp::Xor => output.push(Instr::Bin32(Bin::Xor)),
        JsOp::Shl => output.push(Instr::Bin32(Bin::Shl)),
        JsOp::Sar => output.push(Instr::Bin32(Bin::ShrS)),
        JsOp::Shr => output.push(Instr::Bin32(Bin::ShrU)),
        JsOp::Lt => relation(output, unsigned, Rel::LtU, Rel::LtS),
        JsOp::Le => relation(output, unsigned, Rel::LeU, Rel::LeS),
        JsOp::Gt => relation(output, unsigned, Rel::GtU, Rel::GtS),
        JsOp::Ge => relation(output, unsigned, Rel::GeU, Rel::GeS),
        JsOp::Eq => output.push(Instr::Rel32(Rel::Eq)),
        JsOp::Ne => output.push(Instr::Rel32(Rel::Ne)),
    }
}

fn remainder(unsigned: bool) -> Bin
    ensures { result ≡ (if unsigned then Bin.RemU else Bin.RemS) }
{
    if unsigned { Bin::RemU } else { Bin::RemS }
}

// A comparison, the first where an operand is unsigned and else the second.
fn relation(output: &mut Output, unsigned: bool, first: Rel, second: Rel) -> Result<(), AllocError>
    ensures { OnOk result (output.new ≡ output.old ++ flat (code.relation unsigned first second)) }
{
    if unsigned {
        output.push(Instr::Rel32(first))
    } else {
        output.push(Instr::Rel32(second))
    }
}
