//! Operands and results as they are read and given.
ghost use Rattle.std.specs.Prelude.{◌≡◌, ◌∷◌, [], ◌++◌, IfOk};
ghost use Rattle.asm_tree.specs.Views.{expr_view};
ghost use Rattle.wasm2js_translation.specs.Bodies as bodies;
ghost use Rattle.wasm2js_translation.specs.Pairs.{operand_pair};
ghost use Rattle.wasm2js_translation.specs.Words as words;
ghost use Rattle.wasm2js_build.specs.Blocks.{statements_of};

use asm_tree::Expr;
use std::alloc::{AllocError, Global};
use wasm2js_build::Block;
use wasm2js_nodes::{Fixed, Name, Numbered, put_in, signed, variable};

/// The operand above so many others, as a signed number.
pub fn signed_word(alloc: Global, depth: u64) -> Result<Expr, AllocError>
    ensures { IfOk result (λ e. expr_view e ≡ bodies.signed_word depth) }
{
    let read = variable(alloc, Name::Counted(Numbered::OperandLow, depth))?;
    signed(alloc, read)
}

/// The variable for the high word of a result gets that of an operand.
pub(crate) fn keep_high(alloc: Global, depth: u64, block: &mut Block) -> Result<(), AllocError>
    ensures { IfOk result (λ _. statements_of block.new ≡ statements_of block.old ++ words.put_in bodies.high_result (bodies.word_in (operand_pair depth).high) ∷ []) }
{
    let read = variable(alloc, Name::Counted(Numbered::OperandHigh, depth))?;
    let stmt = put_in(alloc, Name::Always(Fixed::ResultHigh), read)?;
    block.push(stmt)
}

/// The high word of an operand gets that of the last result.
pub(crate) fn take_high(alloc: Global, depth: u64, block: &mut Block) -> Result<(), AllocError>
    ensures { IfOk result (λ _. statements_of block.new ≡ statements_of block.old ++ words.put_in (operand_pair depth).high (bodies.word_in bodies.high_result) ∷ []) }
{
    let read = variable(alloc, Name::Always(Fixed::ResultHigh))?;
    let stmt = put_in(alloc, Name::Counted(Numbered::OperandHigh, depth), read)?;
    block.push(stmt)
}
