//! Operators of two operands.
ghost use Rattle.std.specs.Prelude.{◌≡◌, ◌++◌, ◌||◌, suc, OnOk};
ghost use Rattle.wasm_laws_trees.specs.Spelled.{flat};
ghost use Rattle.wasm_laws_write.specs.Lengths.{IsNarrow};
ghost use Rattle.wasm_laws_write.specs.Each.{EachIn};
ghost use Rattle.asm_tree.specs.Views.{expr_view};
ghost use Rattle.asm2wasm_translation.specs.Values as code;
ghost use Rattle.asm2wasm_emit_values.specs.Contexts.{scope_in};

use crate::context::Context;
use crate::forms::is_unsigned;
use asm_tree::Expr;
use asm2wasm_emit_pieces::{Output, operator};
use sem_words::JsOp;
use std::alloc::AllocError;

/// The operator on these operands, whose values stand on the stack.
pub fn operate(
    context: &Context<'_, '_, '_>,
    output: &mut Output,
    depth: usize,
    op: JsOp,
    left: &Expr,
    right: &Expr,
) -> Result<(), AllocError>
    requires narrow { EachIn IsNarrow (code.operator op (code.is_unsigned (expr_view left.now) || code.is_unsigned (expr_view right.now)) (code.scratch context.now.size (scope_in context.now) depth) (code.scratch context.now.size (scope_in context.now) (suc depth))) }
    ensures { OnOk result (output.new ≡ output.old ++ flat (code.operator op (code.is_unsigned (expr_view left.now) || code.is_unsigned (expr_view right.now)) (code.scratch context.now.size (scope_in context.now) depth) (code.scratch context.now.size (scope_in context.now) (suc depth)))) }
{
    let unsigned = is_unsigned(left) || is_unsigned(right);
    operator(output, op, unsigned, context.scratch(depth))
}
