//! Bodies of functions.
ghost use Rattle.std.specs.Prelude.{◌≡◌, ℕ, ◌+◌, ◌<◌, ◌^◌, [], ◌++◌, OnOk, IfOk, map, option_copied};
ghost use Rattle.wasm_laws_trees.specs.Spelled.{flat};
ghost use Rattle.wasm_laws_write.specs.Lengths.{IsNarrow};
ghost use Rattle.wasm_laws_write.specs.Each.{EachIn};
ghost use Rattle.asm_tree.specs.Views.{expr_option, init_view, local_view, stmt_view, stmts_view};
ghost use Rattle.asm_lang_valid.specs.Typing.{Scope};
ghost use Rattle.asm2wasm_translation.specs.Values as values;
ghost use Rattle.asm2wasm_translation.specs.Bodies as code;
ghost use Rattle.asm2wasm_numbers.specs.Functions.{scope_said};
ghost use Rattle.asm2wasm_emit_values.specs.Contexts.{scope_in};
ghost use Rattle.asm2wasm_emit_bodies.specs.Forms.{last_form};

use crate::statements::{emit_stmt, emit_stmts};
use asm_tree::{Expr, Init, Local, Stmt};
use asm2wasm_emit_pieces::Output;
use asm2wasm_emit_switches::Labels;
use asm2wasm_emit_values::{Context, emit};
use asm2wasm_numbers::FunctionNumbers;
use std::alloc::{AllocError, Global};
use switch_cases::word_of;

/// The body of a function, without the `End` that closes it, in a module with a heap of `size` bytes.
pub fn emit_function(
    alloc: Global,
    numbers: &FunctionNumbers<'_, '_>,
    size: usize,
) -> Result<Output, AllocError>
    requires narrow { EachIn IsNarrow (code.function_code size (scope_said numbers.now)) }
    ensures { IfOk result (λ output. output ≡ flat (code.function_code size (scope_said numbers.now))) }
{
    let context = Context::new(numbers, size);
    let function = numbers.function();
    let first = function.params.as_slice().len();
    let mut output = Output::new(alloc);
    emit_locals(&context, &mut output, first, function.locals.as_slice())?;
    emit_body(&context, &mut output, alloc, function.body.as_slice())?;
    Ok(output)
}

// The first values of locals that aren't 0, from the local `first` on.
fn emit_locals(
    context: &Context<'_, '_, '_>,
    output: &mut Output,
    first: usize,
    locals: &[Local],
) -> Result<(), AllocError>
    requires few { first < 2 ^ 63 }
    requires narrow { EachIn IsNarrow (code.locals_code context.now.size (scope_in context.now) first (map local_view locals.now)) }
    ensures { OnOk result (output.new ≡ output.old ++ flat (code.locals_code context.now.size (scope_in context.now) first (map local_view locals.now))) }
{
    for (i, local) in locals.iter().enumerate() {
        emit_first_value(context, output, first + i, literal_word(&local.init))?;
    }
    Ok(())
}

fn emit_first_value(
    context: &Context<'_, '_, '_>,
    output: &mut Output,
    local: usize,
    word: u32,
) -> Result<(), AllocError>
    requires narrow { EachIn IsNarrow (values.plains (code.first_value context.now.size (scope_in context.now) local word)) }
    ensures { OnOk result (output.new ≡ output.old ++ flat (values.plains (code.first_value context.now.size (scope_in context.now) local word))) }
{
    if word == 0 {
        return Ok(());
    }
    output.number(word as usize)?;
    output.local_set(local)
}

fn literal_word(init: &Init) -> u32
    ensures { (size : ℕ) (c : Scope) → result ≡ code.literal_word size c (init_view init.now) }
{
    match init {
        Init::Number(value) => word_of(*value),
        _ => 0,
    }
}

// Statements, of which a last `return` leaves its value.
fn emit_body(
    context: &Context<'_, '_, '_>,
    output: &mut Output,
    alloc: Global,
    body: &[Stmt],
) -> Result<(), AllocError>
    requires narrow { EachIn IsNarrow (code.body_code context.now.size (scope_in context.now) (stmts_view body.now)) }
    ensures { OnOk result (output.new ≡ output.old ++ flat (code.body_code context.now.size (scope_in context.now) (stmts_view body.now))) }
{
    match body.split_last() {
        None => Ok(()),
        Some((last, before)) => {
            emit_stmts(context, output, alloc, &Labels::Nothing, before)?;
            emit_last(context, output, alloc, last)
        }
    }
}

fn emit_last(
    context: &Context<'_, '_, '_>,
    output: &mut Output,
    alloc: Global,
    last: &Stmt,
) -> Result<(), AllocError>
    requires narrow { EachIn IsNarrow (code.last_code context.now.size (scope_in context.now) (stmt_view last.now)) }
    ensures { OnOk result (output.new ≡ output.old ++ flat (code.last_code context.now.size (scope_in context.now) (stmt_view last.now))) }
{
    match last_value(last) {
        None => emit_stmt(context, output, alloc, &Labels::Nothing, &[], last),
        Some(value) => emit(context, output, true, 0, value),
    }
}

// The value that a last statement leaves.
#[tactic(auto, using(asm_tree::proofs::Views::views))]
fn last_value(last: &Stmt) -> Option<&Expr>
    ensures { (size : ℕ) (c : Scope) → code.last_code size c (stmt_view last.now) ≡ last_form size c (stmt_view last.now) (expr_option (option_copied result)) }
{
    match last {
        Stmt::Return(value) => value.as_ref(),
        Stmt::Block(_)
        | Stmt::Plain(_)
        | Stmt::Empty
        | Stmt::If(_, None, _)
        | Stmt::If(_, Some(_), _)
        | Stmt::While(_, _)
        | Stmt::DoWhile(_, _)
        | Stmt::For(_, _)
        | Stmt::Break(_)
        | Stmt::Continue(_)
        | Stmt::Labelled(_, _)
        | Stmt::Switch(_, _) => None,
    }
}
