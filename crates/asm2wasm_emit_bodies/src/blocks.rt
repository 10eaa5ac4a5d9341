//! What stands round and between statements.
ghost use Rattle.std.specs.Prelude.{◌≡◌, ◌<◌, ◌^◌, [], ◌∷◌, ◌++◌, None, Some, OnOk, replicate};
ghost use Rattle.wasm_lang.specs.Instructions as instructions;
ghost use Rattle.wasm_lang.specs.Instructions.{end_mark};
ghost use Rattle.wasm_laws_trees.specs.Spelled.{flat};
ghost use Rattle.wasm_laws_write.specs.Lengths.{IsNarrow};
ghost use Rattle.wasm_laws_write.specs.Each.{EachIn};
ghost use Rattle.asm_tree.specs.Views.{expr_view, expr_option};
ghost use Rattle.asm2wasm_translation.specs.Bodies as code;
ghost use Rattle.asm2wasm_emit_values.specs.Contexts.{scope_in};
ghost use Rattle.asm2wasm_emit_bodies.specs.Forms.{return_code, subject_code};

use asm_tree::Expr;
use asm2wasm_emit_pieces::Output;
use asm2wasm_emit_values::{Context, emit};
use std::alloc::AllocError;
use wasm_tree::Instr;

/// The block of a loop, and the loop.
pub fn open_loop(output: &mut Output) -> Result<(), AllocError>
    ensures { OnOk result (output.new ≡ output.old ++ instructions.block None ∷ instructions.loop None ∷ []) }
{
    output.push(Instr::Block(None))?;
    output.push(Instr::Loop(None))
}

/// The ends of both.
pub fn close_loop(output: &mut Output) -> Result<(), AllocError>
    ensures { OnOk result (output.new ≡ output.old ++ end_mark ∷ end_mark ∷ []) }
{
    output.push(Instr::End)?;
    output.push(Instr::End)
}

/// So many blocks.
pub fn open_blocks(output: &mut Output, count: usize) -> Result<(), AllocError>
    ensures { OnOk result (output.new ≡ output.old ++ replicate count (instructions.block None)) }
{
    let mut left = count;
    while left > 0 {
        left -= 1;
        output.push(Instr::Block(None))?;
    }
    Ok(())
}

/// A branch to a label.
pub fn branch(output: &mut Output, label: usize) -> Result<(), AllocError>
    requires { label < 2 ^ 32 }
    ensures { OnOk result (output.new ≡ output.old ++ instructions.br label ∷ []) }
{
    output.push(Instr::Br(label as u32))
}

/// A part of a `for` that may be missing, without its value.
pub fn emit_part(
    context: &Context<'_, '_, '_>,
    output: &mut Output,
    part: &Option<Expr>,
) -> Result<(), AllocError>
    requires narrow { EachIn IsNarrow (code.part_code context.now.size (scope_in context.now) (expr_option part.now)) }
    ensures { OnOk result (output.new ≡ output.old ++ flat (code.part_code context.now.size (scope_in context.now) (expr_option part.now))) }
{
    match part {
        None => Ok(()),
        Some(expr) => emit(context, output, false, 0, expr),
    }
}

/// The condition of a loop, which is left where it doesn't hold.
pub fn emit_test(
    context: &Context<'_, '_, '_>,
    output: &mut Output,
    condition: &Option<Expr>,
) -> Result<(), AllocError>
    requires narrow { EachIn IsNarrow (code.test_code context.now.size (scope_in context.now) (expr_option condition.now)) }
    ensures { OnOk result (output.new ≡ output.old ++ flat (code.test_code context.now.size (scope_in context.now) (expr_option condition.now))) }
{
    match condition {
        None => Ok(()),
        Some(condition) => emit_condition(context, output, condition),
    }
}

/// .. that is there.
pub fn emit_condition(
    context: &Context<'_, '_, '_>,
    output: &mut Output,
    condition: &Expr,
) -> Result<(), AllocError>
    requires narrow { EachIn IsNarrow (code.test_code context.now.size (scope_in context.now) (Some (expr_view condition.now))) }
    ensures { OnOk result (output.new ≡ output.old ++ flat (code.test_code context.now.size (scope_in context.now) (Some (expr_view condition.now)))) }
{
    emit(context, output, true, 0, condition)?;
    output.push(Instr::Eqz32)?;
    output.push(Instr::BrIf(1))
}

/// The end of a function, with its value.
pub fn emit_return(
    context: &Context<'_, '_, '_>,
    output: &mut Output,
    value: &Option<Expr>,
) -> Result<(), AllocError>
    requires narrow { EachIn IsNarrow (return_code context.now.size (scope_in context.now) (expr_option value.now)) }
    ensures { OnOk result (output.new ≡ output.old ++ flat (return_code context.now.size (scope_in context.now) (expr_option value.now))) }
{
    match value {
        None => output.push(Instr::Return),
        Some(value) => emit_value(context, output, value),
    }
}

fn emit_value(
    context: &Context<'_, '_, '_>,
    output: &mut Output,
    value: &Expr,
) -> Result<(), AllocError>
    requires narrow { EachIn IsNarrow (return_code context.now.size (scope_in context.now) (Some (expr_view value.now))) }
    ensures { OnOk result (output.new ≡ output.old ++ flat (return_code context.now.size (scope_in context.now) (Some (expr_view value.now)))) }
{
    emit(context, output, true, 0, value)?;
    output.push(Instr::Return)
}

/// The subject of a switch, into the local that holds it.
pub fn emit_subject(
    context: &Context<'_, '_, '_>,
    output: &mut Output,
    subject: &Expr,
) -> Result<(), AllocError>
    requires narrow { EachIn IsNarrow (subject_code context.now.size (scope_in context.now) (expr_view subject.now)) }
    ensures { OnOk result (output.new ≡ output.old ++ flat (subject_code context.now.size (scope_in context.now) (expr_view subject.now))) }
{
    emit(context, output, true, 0, subject)?;
    output.local_set(context.scratch(0).first)
}
