//! The code round the body of a loop, from its end.
ghost use Rattle.std.specs.Prelude.{◌≡◌, suc, ◌∷◌, length, OnOk, IfOk};
ghost use Rattle.asm_tree.specs.Views.{texts_view, expr_option};
ghost use Rattle.asm_run_code.specs.declared.op.Op.TheVariants.{Turn, Again};
ghost use Rattle.asm_run_code.specs.Bodies as code;
ghost use Rattle.asm_run_code.specs.Bodies.{a_loop};
ghost use Rattle.asm_run_names.specs.Names.{scope_said};
ghost use Rattle.asm_run_emit_bodies.specs.Jumps.{inside};
ghost use Rattle.asm_run_emit_bodies.specs.Loops.{first, head, tail};

use crate::jumps::Jumps;
use asm_run_code::Op;
use asm_run_emit_values::{Output, emit_test, emit_value};
use asm_run_names::{FunctionNames, next};
use asm_tree::{Expr, ForHead};
use sem_words::Text;
use std::alloc::AllocError;

/// What stands round the body of a loop.
#[derive(Clone, Copy)]
pub enum Turns<'l> {
    /// A condition before it.
    While(&'l Expr),
    /// A condition after it.
    DoWhile(&'l Expr),
    For(&'l ForHead),
}

/// What comes after the body, up to the next turn. It gives the address of what comes after the loop.
pub fn end_turns(
    names: &FunctionNames<'_, '_>,
    output: &mut Output,
    free: u32,
    turns: Turns<'_>,
) -> Result<u32, AllocError>
    ensures past { IfOk result (λ past. past ≡ length output.old) }
    ensures put { OnOk result (output.new ≡ tail (scope_said names.now) (suc free) (length output.old) turns.entry (Again free ∷ output.old)) }
{
    let past = output.address();
    output.put(Op::Again { slot: free })?;
    let inner = next(free)?;
    put_tail(names, output, inner, past, turns)?;
    Ok(past)
}

fn put_tail(
    names: &FunctionNames<'_, '_>,
    output: &mut Output,
    free: u32,
    past: u32,
    turns: Turns<'_>,
) -> Result<(), AllocError>
    ensures { OnOk result (output.new ≡ tail (scope_said names.now) free past turns.entry output.old) }
{
    match turns {
        Turns::While(_) => Ok(()),
        Turns::DoWhile(condition) => emit_test(names, output, free, condition, past),
        Turns::For(head) => emit_part(names, output, free, &head.step),
    }
}

/// Into the body, whose next turn begins with the code that is there. It gives the first slot that is free inside.
pub fn enter_body<'l>(
    output: &Output,
    jumps: &mut Jumps<'l>,
    own: &'l [Text],
    free: u32,
    past: u32,
) -> Result<u32, AllocError>
    ensures inner { IfOk result (λ inner. inner ≡ suc free) }
    ensures entered { OnOk result (jumps.new ≡ inside (a_loop (texts_view own.now) (length output.now) past) jumps.old) }
{
    let turn = output.address();
    jumps.enter_loop(own, turn, past)?;
    next(free)
}

/// What comes before the body.
pub fn begin_turns(
    names: &FunctionNames<'_, '_>,
    output: &mut Output,
    free: u32,
    past: u32,
    turns: Turns<'_>,
) -> Result<(), AllocError>
    ensures { OnOk result (output.new ≡ first (scope_said names.now) free turns.entry (Turn free ∷ head (scope_said names.now) (suc free) past turns.entry output.old)) }
{
    let inner = next(free)?;
    put_head(names, output, inner, past, turns)?;
    output.put(Op::Turn { to: free })?;
    put_first(names, output, free, turns)
}

fn put_head(
    names: &FunctionNames<'_, '_>,
    output: &mut Output,
    free: u32,
    past: u32,
    turns: Turns<'_>,
) -> Result<(), AllocError>
    ensures { OnOk result (output.new ≡ head (scope_said names.now) free past turns.entry output.old) }
{
    match turns {
        Turns::While(condition) => emit_test(names, output, free, condition, past),
        Turns::DoWhile(_) => Ok(()),
        Turns::For(head) => emit_condition(names, output, free, &head.condition, past),
    }
}

fn put_first(
    names: &FunctionNames<'_, '_>,
    output: &mut Output,
    free: u32,
    turns: Turns<'_>,
) -> Result<(), AllocError>
    ensures { OnOk result (output.new ≡ first (scope_said names.now) free turns.entry output.old) }
{
    match turns {
        Turns::While(_) => Ok(()),
        Turns::DoWhile(_) => Ok(()),
        Turns::For(head) => emit_part(names, output, free, &head.start),
    }
}

fn emit_part(
    names: &FunctionNames<'_, '_>,
    output: &mut Output,
    free: u32,
    part: &Option<Expr>,
) -> Result<(), AllocError>
    ensures { OnOk result (output.new ≡ code.part (scope_said names.now) free (expr_option part.now) output.old) }
{
    match part {
        None => Ok(()),
        Some(expr) => emit_value(names, output, None, free, expr),
    }
}

fn emit_condition(
    names: &FunctionNames<'_, '_>,
    output: &mut Output,
    free: u32,
    condition: &Option<Expr>,
    past: u32,
) -> Result<(), AllocError>
    ensures { OnOk result (output.new ≡ code.condition_if (scope_said names.now) free (expr_option condition.now) past output.old) }
{
    match condition {
        None => Ok(()),
        Some(expr) => emit_test(names, output, free, expr, past),
    }
}
