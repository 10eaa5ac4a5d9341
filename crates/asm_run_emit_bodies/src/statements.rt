//! The code of statements, from its end.
ghost use Rattle.std.specs.Prelude.{◌≡◌, ◌≤◌, List, [], ◌∷◌, length, OnOk, IfOk};
ghost use Rattle.asm_lang.specs.Modules as form;
ghost use Rattle.asm_tree.specs.Views.{texts_view, expr_view, expr_option, stmt_view, stmts_view, clauses_view};
ghost use Rattle.asm_run_code.specs.declared.op.Op.TheVariants.{Go};
ghost use Rattle.asm_run_code.specs.Bodies as code;
ghost use Rattle.asm_run_code.specs.Bodies.{stmt, stmts_code, clauses_code};
ghost use Rattle.asm_run_names.specs.Names.{scope_said};
ghost use Rattle.asm_run_emit_bodies.specs.Jumps.{Meets};
ghost use Rattle.asm_run_emit_bodies.specs.Loops.{loop_of};
ghost use Rattle.asm_run_emit_bodies.specs.Choices.{choice, otherwise, otherwise_at, stmt_option};
ghost use Rattle.asm_run_emit_bodies.specs.Switches.{chosen};

use crate::jumps::Jumps;
use crate::loops::{Turns, begin_turns, end_turns, enter_body};
use crate::switches::{Starts, dispatch, start_switch};
use asm_run_code::Op;
use asm_run_emit_values::{Output, emit_operand, emit_test, emit_value, into, local};
use asm_run_names::FunctionNames;
use asm_tree::{Clause, Expr, ForHead, Stmt};
use sem_words::Text;
use std::alloc::AllocError;

/// The code of a statement before the code that is there. A loop has the labels of `own`. Slots from `free` on are free.
#[cycle(statements)]
pub fn emit_stmt<'l>(
    names: &FunctionNames<'_, '_>,
    output: &mut Output,
    jumps: &mut Jumps<'l>,
    own: &'l [Text],
    free: u32,
    statement: &'l Stmt,
) -> Result<(), AllocError>
    ensures code { (os : List code.Around) → Meets jumps.old os → OnOk result (output.new ≡ stmt (scope_said names.now) os (texts_view own.now) free (stmt_view statement.now) output.old) }
    ensures kept { OnOk result (jumps.new ≡ jumps.old) }
{
    match statement {
        Stmt::Empty => Ok(()),
        Stmt::Block(body) => emit_stmts(names, output, jumps, free, body.as_slice()),
        Stmt::Plain(expr) => emit_value(names, output, None, free, expr),
        Stmt::If(yes, no, condition) => { emit_if(names, output, jumps, free, condition, yes, no) }
        Stmt::Return(value) => emit_return(names, output, free, value),
        Stmt::While(condition, body) => {
            let turns = Turns::While(condition);
            emit_loop(names, output, jumps, own, free, turns, body)
        }
        Stmt::DoWhile(body, condition) => {
            let turns = Turns::DoWhile(condition);
            emit_loop(names, output, jumps, own, free, turns, body)
        }
        Stmt::For(head, body) => {
            let head: &ForHead = head;
            let turns = Turns::For(head);
            emit_loop(names, output, jumps, own, free, turns, body)
        }
        Stmt::Break(name) => put_go(output, jumps.break_address(name)),
        Stmt::Continue(name) => put_go(output, jumps.continue_address(name)),
        Stmt::Labelled(labels, body) => {
            emit_labelled(names, output, jumps, labels.as_slice(), free, body)
        }
        Stmt::Switch(cases, subject) => {
            emit_switch(names, output, jumps, free, cases.as_slice(), subject)
        }
    }
}

#[cycle(statements)]
fn emit_labelled<'l>(
    names: &FunctionNames<'_, '_>,
    output: &mut Output,
    jumps: &mut Jumps<'l>,
    labels: &'l [Text],
    free: u32,
    body: &'l Stmt,
) -> Result<(), AllocError>
    ensures code { (os : List code.Around) → Meets jumps.old os → OnOk result (output.new ≡ stmt (scope_said names.now) os [] free (form.labelled (texts_view labels.now) (stmt_view body.now)) output.old) }
    ensures kept { OnOk result (jumps.new ≡ jumps.old) }
{
    let past = output.address();
    jumps.enter_labelled(labels, past)?;
    emit_stmt(names, output, jumps, labels, free, body)?;
    jumps.leave_labelled(labels);
    Ok(())
}

// A statement that has no labels of its own.
#[cycle(statements)]
fn emit_bare<'l>(
    names: &FunctionNames<'_, '_>,
    output: &mut Output,
    jumps: &mut Jumps<'l>,
    free: u32,
    body: &'l Stmt,
) -> Result<(), AllocError>
    ensures code { (os : List code.Around) → Meets jumps.old os → OnOk result (output.new ≡ stmt (scope_said names.now) os [] free (stmt_view body.now) output.old) }
    ensures kept { OnOk result (jumps.new ≡ jumps.old) }
{
    emit_stmt(names, output, jumps, &[], free, body)
}

fn put_go(output: &mut Output, at: u32) -> Result<(), AllocError>
    ensures { OnOk result (output.new ≡ Go at ∷ output.old) }
{
    output.put(Op::Go { at })
}

/// Statements one after another.
#[cycle(statements)]
pub fn emit_stmts<'l>(
    names: &FunctionNames<'_, '_>,
    output: &mut Output,
    jumps: &mut Jumps<'l>,
    free: u32,
    body: &'l [Stmt],
) -> Result<(), AllocError>
    ensures code { (os : List code.Around) → Meets jumps.old os → OnOk result (output.new ≡ stmts_code (scope_said names.now) os free (stmts_view body.now) output.old) }
    ensures kept { OnOk result (jumps.new ≡ jumps.old) }
{
    let mut i = body.len();
    while i > 0 {
        i -= 1;
        emit_bare(names, output, jumps, free, &body[i])?;
    }
    Ok(())
}

#[cycle(statements)]
fn emit_if<'l>(
    names: &FunctionNames<'_, '_>,
    output: &mut Output,
    jumps: &mut Jumps<'l>,
    free: u32,
    condition: &'l Expr,
    yes: &'l Stmt,
    no: &'l Option<Box<Stmt>>,
) -> Result<(), AllocError>
    ensures code { (os : List code.Around) → Meets jumps.old os → OnOk result (output.new ≡ stmt (scope_said names.now) os [] free (choice (expr_view condition.now) (stmt_view yes.now) (stmt_option no.now)) output.old) }
    ensures kept { OnOk result (jumps.new ≡ jumps.old) }
{
    let at = emit_else(names, output, jumps, free, no)?;
    emit_bare(names, output, jumps, free, yes)?;
    emit_test(names, output, free, condition, at)
}

// The second arm of a choice, if there is one, behind the end of the first arm, and the address where it begins.
#[cycle(statements)]
fn emit_else<'l>(
    names: &FunctionNames<'_, '_>,
    output: &mut Output,
    jumps: &mut Jumps<'l>,
    free: u32,
    no: &'l Option<Box<Stmt>>,
) -> Result<u32, AllocError>
    ensures at { (os : List code.Around) → Meets jumps.old os → IfOk result (λ at. at ≡ otherwise_at (scope_said names.now) os free (stmt_option no.now) output.old) }
    ensures code { (os : List code.Around) → Meets jumps.old os → OnOk result (output.new ≡ otherwise (scope_said names.now) os free (stmt_option no.now) output.old) }
    ensures kept { OnOk result (jumps.new ≡ jumps.old) }
{
    let past = output.address();
    match no {
        None => Ok(past),
        Some(no) => {
            emit_bare(names, output, jumps, free, no)?;
            put_past(output, past)
        }
    }
}

// The end of the first arm of a choice, and the address of the second.
fn put_past(output: &mut Output, past: u32) -> Result<u32, AllocError>
    ensures at { IfOk result (λ at. at ≡ length output.old) }
    ensures put { OnOk result (output.new ≡ Go past ∷ output.old) }
{
    let at = output.address();
    output.put(Op::Go { at: past })?;
    Ok(at)
}

fn emit_return(
    names: &FunctionNames<'_, '_>,
    output: &mut Output,
    free: u32,
    value: &Option<Expr>,
) -> Result<(), AllocError>
    ensures { OnOk result (output.new ≡ stmt (scope_said names.now) [] [] free (form.returns (expr_option value.now)) output.old) }
{
    match value {
        None => {
            output.put(Op::Give { from: free })?;
            output.put(Op::Number { to: free, word: 0 })
        }
        Some(value) => {
            let place = local(names, value);
            let from = into(place, free);
            output.put(Op::Give { from })?;
            emit_operand(names, output, place, free, value)
        }
    }
}

#[cycle(statements)]
fn emit_loop<'l>(
    names: &FunctionNames<'_, '_>,
    output: &mut Output,
    jumps: &mut Jumps<'l>,
    own: &'l [Text],
    free: u32,
    turns: Turns<'l>,
    body: &'l Stmt,
) -> Result<(), AllocError>
    ensures code { (os : List code.Around) → Meets jumps.old os → OnOk result (output.new ≡ stmt (scope_said names.now) os (texts_view own.now) free (loop_of turns.entry (stmt_view body.now)) output.old) }
    ensures kept { OnOk result (jumps.new ≡ jumps.old) }
{
    let past = end_turns(names, output, free, turns)?;
    let inner = enter_body(output, jumps, own, free, past)?;
    emit_bare(names, output, jumps, inner, body)?;
    jumps.leave_loop(own);
    begin_turns(names, output, free, past, turns)
}

#[cycle(statements)]
fn emit_switch<'l>(
    names: &FunctionNames<'_, '_>,
    output: &mut Output,
    jumps: &mut Jumps<'l>,
    free: u32,
    clauses: &'l [Clause],
    subject: &'l Expr,
) -> Result<(), AllocError>
    ensures code { (os : List code.Around) → Meets jumps.old os → OnOk result (output.new ≡ stmt (scope_said names.now) os [] free (form.switches (expr_view subject.now) (clauses_view clauses.now)) output.old) }
    ensures kept { OnOk result (jumps.new ≡ jumps.old) }
{
    let mut starts = Starts::new(output.alloc());
    start_switch(output, jumps, &mut starts)?;
    emit_clauses(names, output, jumps, free, clauses, &mut starts)?;
    jumps.leave_switch();
    emit_choice(names, output, free, clauses, &starts, subject)
}

// The value of a switch, and the way from there to its clause.
fn emit_choice(
    names: &FunctionNames<'_, '_>,
    output: &mut Output,
    free: u32,
    clauses: &[Clause],
    starts: &Starts,
    subject: &Expr,
) -> Result<(), AllocError>
    requires { length clauses.now ≤ length starts.now }
    ensures { OnOk result (output.new ≡ chosen (scope_said names.now) free (clauses_view clauses.now) starts.now (expr_view subject.now) output.old) }
{
    let place = local(names, subject);
    let slot = into(place, free);
    dispatch(output, clauses, starts, slot)?;
    emit_operand(names, output, place, free, subject)
}

// The clauses one after another, and their addresses before that of what comes after them.
#[cycle(statements)]
fn emit_clauses<'l>(
    names: &FunctionNames<'_, '_>,
    output: &mut Output,
    jumps: &mut Jumps<'l>,
    free: u32,
    clauses: &'l [Clause],
    starts: &mut Starts,
) -> Result<(), AllocError>
    requires { starts.old ≡ length output.old ∷ [] }
    ensures code { (os : List code.Around) → Meets jumps.old os → OnOk result (output.new ≡ (clauses_code (scope_said names.now) os free (clauses_view clauses.now) output.old).code) }
    ensures starts { (os : List code.Around) → Meets jumps.old os → OnOk result (starts.new ≡ (clauses_code (scope_said names.now) os free (clauses_view clauses.now) output.old).starts) }
    ensures count { OnOk result (length clauses.now ≤ length starts.new) }
    ensures kept { OnOk result (jumps.new ≡ jumps.old) }
{
    let mut i = clauses.len();
    while i > 0 {
        i -= 1;
        emit_stmts(names, output, jumps, free, clauses[i].body.as_slice())?;
        let at = output.address();
        starts.put(at)?;
    }
    Ok(())
}
