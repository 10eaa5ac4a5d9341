//! Statements. Each begins and ends with no value on the stack.
ghost use Rattle.std.specs.Prelude.{◌≡◌, ◌<◌, ◌≤◌, [], ◌++◌, None, Some, OnOk, length};
ghost use Rattle.wasm_lang_exec.specs.Code.{ε, ◌▹◌, block};
ghost use Rattle.wasm_laws_trees.specs.Spelled.{flat};
ghost use Rattle.wasm_laws_write.specs.Lengths.{IsNarrow};
ghost use Rattle.wasm_laws_write.specs.Each.{EachIn};
ghost use Rattle.asm_tree.specs.Views.{texts_view, expr_view, expr_option, stmt_view, stmts_view, clauses_view};
ghost use Rattle.asm2wasm_translation.specs.Bodies as code;
ghost use Rattle.asm2wasm_emit_switches.specs.Labels.{labels_view};
ghost use Rattle.asm2wasm_emit_values.specs.Contexts.{scope_in};
ghost use Rattle.asm2wasm_emit_bodies.specs.Forms.{if_code, if_else_code, while_code, until_code, switch_code, few_code, many_code, clauses_spelled};

use crate::blocks::{
    branch, close_loop, emit_condition, emit_part, emit_return, emit_subject, emit_test,
    open_blocks, open_loop,
};
use asm_tree::{Clause, Expr, ForHead, Stmt};
use asm2wasm_emit_pieces::Output;
use asm2wasm_emit_switches::{Labels, Open, all_further, dispatch, first_clause, reached};
use asm2wasm_emit_values::{Context, emit};
use sem_words::Text;
use std::alloc::{AllocError, Global};
use wasm_tree::Instr;

/// A statement under these labels. A loop has those of `own` as its own.
#[cycle(statements)]
pub fn emit_stmt<'l>(
    context: &Context<'_, '_, '_>,
    output: &mut Output,
    alloc: Global,
    labels: &'l Labels<'l>,
    own: &'l [Text],
    stmt: &'l Stmt,
) -> Result<(), AllocError>
    requires narrow { EachIn IsNarrow (code.stmt_code context.now.size (scope_in context.now) (labels_view labels.now) (texts_view own.now) (stmt_view stmt.now)) }
    ensures { OnOk result (output.new ≡ output.old ++ flat (code.stmt_code context.now.size (scope_in context.now) (labels_view labels.now) (texts_view own.now) (stmt_view stmt.now))) }
{
    match stmt {
        Stmt::Empty => Ok(()),
        Stmt::Block(body) => emit_stmts(context, output, alloc, labels, body.as_slice()),
        Stmt::Plain(expr) => emit(context, output, false, 0, expr),
        Stmt::If(yes, no, condition) => match no {
            None => emit_if(context, output, alloc, labels, condition, yes),
            Some(no) => emit_if_else(context, output, alloc, labels, condition, yes, no),
        },
        Stmt::Return(value) => emit_return(context, output, value),
        Stmt::While(condition, body) => {
            emit_while(context, output, alloc, labels, own, condition, body)
        }
        Stmt::DoWhile(body, condition) => {
            emit_do(context, output, alloc, labels, own, body, condition)
        }
        Stmt::For(head, body) => {
            let head: &ForHead = head;
            let (condition, step) = (&head.condition, &head.step);
            emit_part(context, output, &head.start)?;
            emit_loop(context, output, alloc, labels, own, condition, step, body)
        }
        Stmt::Break(name) => branch(output, labels.break_label(name)),
        Stmt::Continue(name) => branch(output, labels.continue_label(name)),
        Stmt::Labelled(names, body) => {
            let names = names.as_slice();
            let inside = Labels::Inside(Open::NamedEnd(names), labels);
            emit_block(context, output, alloc, &inside, names, body)
        }
        Stmt::Switch(clauses, subject) => {
            emit_switch(context, output, alloc, labels, subject, clauses.as_slice())
        }
    }
}

/// Statements one after another.
#[cycle(statements)]
pub fn emit_stmts<'l>(
    context: &Context<'_, '_, '_>,
    output: &mut Output,
    alloc: Global,
    labels: &'l Labels<'l>,
    stmts: &'l [Stmt],
) -> Result<(), AllocError>
    requires narrow { EachIn IsNarrow (code.stmts_code context.now.size (scope_in context.now) (labels_view labels.now) (stmts_view stmts.now)) }
    ensures { OnOk result (output.new ≡ output.old ++ flat (code.stmts_code context.now.size (scope_in context.now) (labels_view labels.now) (stmts_view stmts.now))) }
{
    for stmt in stmts {
        emit_stmt(context, output, alloc, labels, &[], stmt)?;
    }
    Ok(())
}

// A statement in a block.
#[cycle(statements)]
fn emit_block<'l>(
    context: &Context<'_, '_, '_>,
    output: &mut Output,
    alloc: Global,
    labels: &'l Labels<'l>,
    own: &'l [Text],
    body: &'l Stmt,
) -> Result<(), AllocError>
    requires narrow { EachIn IsNarrow (block None (code.stmt_code context.now.size (scope_in context.now) (labels_view labels.now) (texts_view own.now) (stmt_view body.now)) ▹ ε) }
    ensures { OnOk result (output.new ≡ output.old ++ flat (block None (code.stmt_code context.now.size (scope_in context.now) (labels_view labels.now) (texts_view own.now) (stmt_view body.now)) ▹ ε)) }
{
    output.push(Instr::Block(None))?;
    emit_stmt(context, output, alloc, labels, own, body)?;
    output.push(Instr::End)
}

#[cycle(statements)]
fn emit_if<'l>(
    context: &Context<'_, '_, '_>,
    output: &mut Output,
    alloc: Global,
    labels: &'l Labels<'l>,
    condition: &Expr,
    yes: &'l Stmt,
) -> Result<(), AllocError>
    requires narrow { EachIn IsNarrow (if_code context.now.size (scope_in context.now) (labels_view labels.now) (expr_view condition.now) (stmt_view yes.now)) }
    ensures { OnOk result (output.new ≡ output.old ++ flat (if_code context.now.size (scope_in context.now) (labels_view labels.now) (expr_view condition.now) (stmt_view yes.now))) }
{
    let inside = Labels::Inside(Open::Plainly(1), labels);
    emit(context, output, true, 0, condition)?;
    output.push(Instr::If(None))?;
    emit_stmt(context, output, alloc, &inside, &[], yes)?;
    output.push(Instr::End)
}

#[cycle(statements)]
fn emit_if_else<'l>(
    context: &Context<'_, '_, '_>,
    output: &mut Output,
    alloc: Global,
    labels: &'l Labels<'l>,
    condition: &Expr,
    yes: &'l Stmt,
    no: &'l Stmt,
) -> Result<(), AllocError>
    requires narrow { EachIn IsNarrow (if_else_code context.now.size (scope_in context.now) (labels_view labels.now) (expr_view condition.now) (stmt_view yes.now) (stmt_view no.now)) }
    ensures { OnOk result (output.new ≡ output.old ++ flat (if_else_code context.now.size (scope_in context.now) (labels_view labels.now) (expr_view condition.now) (stmt_view yes.now) (stmt_view no.now))) }
{
    let inside = Labels::Inside(Open::Plainly(1), labels);
    emit(context, output, true, 0, condition)?;
    output.push(Instr::If(None))?;
    emit_stmt(context, output, alloc, &inside, &[], yes)?;
    output.push(Instr::Else)?;
    emit_stmt(context, output, alloc, &inside, &[], no)?;
    output.end_arms()
}

#[cycle(statements)]
fn emit_while<'l>(
    context: &Context<'_, '_, '_>,
    output: &mut Output,
    alloc: Global,
    labels: &'l Labels<'l>,
    own: &'l [Text],
    condition: &Expr,
    body: &'l Stmt,
) -> Result<(), AllocError>
    requires narrow { EachIn IsNarrow (while_code context.now.size (scope_in context.now) (labels_view labels.now) (texts_view own.now) (Some (expr_view condition.now)) None (stmt_view body.now)) }
    ensures { OnOk result (output.new ≡ output.old ++ flat (while_code context.now.size (scope_in context.now) (labels_view labels.now) (texts_view own.now) (Some (expr_view condition.now)) None (stmt_view body.now))) }
{
    let left = Labels::Inside(Open::Breakable, labels);
    let start = Labels::Inside(Open::Plainly(1), &left);
    let inside = Labels::Inside(Open::NextTurn(own), &start);
    open_loop(output)?;
    emit_condition(context, output, condition)?;
    emit_block(context, output, alloc, &inside, &[], body)?;
    branch(output, 0)?;
    close_loop(output)
}

// A loop that is left where its condition doesn't hold, and makes a step after each turn.
#[cycle(statements)]
fn emit_loop<'l>(
    context: &Context<'_, '_, '_>,
    output: &mut Output,
    alloc: Global,
    labels: &'l Labels<'l>,
    own: &'l [Text],
    condition: &Option<Expr>,
    step: &Option<Expr>,
    body: &'l Stmt,
) -> Result<(), AllocError>
    requires narrow { EachIn IsNarrow (while_code context.now.size (scope_in context.now) (labels_view labels.now) (texts_view own.now) (expr_option condition.now) (expr_option step.now) (stmt_view body.now)) }
    ensures { OnOk result (output.new ≡ output.old ++ flat (while_code context.now.size (scope_in context.now) (labels_view labels.now) (texts_view own.now) (expr_option condition.now) (expr_option step.now) (stmt_view body.now))) }
{
    let left = Labels::Inside(Open::Breakable, labels);
    let start = Labels::Inside(Open::Plainly(1), &left);
    let inside = Labels::Inside(Open::NextTurn(own), &start);
    open_loop(output)?;
    emit_test(context, output, condition)?;
    emit_block(context, output, alloc, &inside, &[], body)?;
    emit_part(context, output, step)?;
    branch(output, 0)?;
    close_loop(output)
}

#[cycle(statements)]
fn emit_do<'l>(
    context: &Context<'_, '_, '_>,
    output: &mut Output,
    alloc: Global,
    labels: &'l Labels<'l>,
    own: &'l [Text],
    body: &'l Stmt,
    condition: &Expr,
) -> Result<(), AllocError>
    requires narrow { EachIn IsNarrow (until_code context.now.size (scope_in context.now) (labels_view labels.now) (texts_view own.now) (stmt_view body.now) (expr_view condition.now)) }
    ensures { OnOk result (output.new ≡ output.old ++ flat (until_code context.now.size (scope_in context.now) (labels_view labels.now) (texts_view own.now) (stmt_view body.now) (expr_view condition.now))) }
{
    let left = Labels::Inside(Open::Breakable, labels);
    let start = Labels::Inside(Open::Plainly(1), &left);
    let inside = Labels::Inside(Open::NextTurn(own), &start);
    open_loop(output)?;
    emit_block(context, output, alloc, &inside, &[], body)?;
    emit(context, output, true, 0, condition)?;
    output.push(Instr::BrIf(0))?;
    close_loop(output)
}

#[cycle(statements)]
fn emit_switch<'l>(
    context: &Context<'_, '_, '_>,
    output: &mut Output,
    alloc: Global,
    labels: &'l Labels<'l>,
    subject: &Expr,
    clauses: &'l [Clause],
) -> Result<(), AllocError>
    requires narrow { EachIn IsNarrow (switch_code context.now.size (scope_in context.now) (labels_view labels.now) (expr_view subject.now) (clauses_view clauses.now)) }
    ensures { OnOk result (output.new ≡ output.old ++ flat (switch_code context.now.size (scope_in context.now) (labels_view labels.now) (expr_view subject.now) (clauses_view clauses.now))) }
{
    emit_subject(context, output, subject)?;
    if clauses.len() <= MOST_BLOCKS {
        short_switch(context, output, alloc, labels, clauses)
    } else {
        long_switch(context, output, alloc, labels, clauses)
    }
}

// A block for each clause.
#[cycle(statements)]
fn short_switch<'l>(
    context: &Context<'_, '_, '_>,
    output: &mut Output,
    alloc: Global,
    labels: &'l Labels<'l>,
    clauses: &'l [Clause],
) -> Result<(), AllocError>
    requires few { length clauses.now ≤ code.most_blocks }
    requires narrow { EachIn IsNarrow (few_code context.now.size (scope_in context.now) (labels_view labels.now) (clauses_view clauses.now)) }
    ensures { OnOk result (output.new ≡ output.old ++ flat (few_code context.now.size (scope_in context.now) (labels_view labels.now) (clauses_view clauses.now))) }
{
    let subject = context.scratch(0).first;
    open_blocks(output, clauses.len() + 1)?;
    dispatch(output, alloc, subject, clauses)?;
    short_clauses(context, output, alloc, labels, clauses)?;
    output.push(Instr::End)
}

// Each clause after the end of its block.
#[cycle(statements)]
fn short_clauses<'l>(
    context: &Context<'_, '_, '_>,
    output: &mut Output,
    alloc: Global,
    labels: &'l Labels<'l>,
    clauses: &'l [Clause],
) -> Result<(), AllocError>
    requires narrow { EachIn IsNarrow (code.short_code context.now.size (scope_in context.now) (labels_view labels.now) ε (clauses_view clauses.now)) }
    ensures { OnOk result (output.new ≡ output.old ++ clauses_spelled context.now.size (scope_in context.now) (labels_view labels.now) (clauses_view clauses.now)) }
{
    let left = Labels::Inside(Open::Breakable, labels);
    let mut after = clauses.len();
    for clause in clauses {
        after -= 1;
        let inside = Labels::Inside(Open::Plainly(after), &left);
        output.push(Instr::End)?;
        emit_stmts(context, output, alloc, &inside, clause.body.as_slice())?;
    }
    Ok(())
}

// The number of the first clause that is run, and then each clause in an if of its own.
#[cycle(statements)]
fn long_switch<'l>(
    context: &Context<'_, '_, '_>,
    output: &mut Output,
    alloc: Global,
    labels: &'l Labels<'l>,
    clauses: &'l [Clause],
) -> Result<(), AllocError>
    requires narrow { EachIn IsNarrow (many_code context.now.size (scope_in context.now) (labels_view labels.now) (clauses_view clauses.now)) }
    ensures { OnOk result (output.new ≡ output.old ++ flat (many_code context.now.size (scope_in context.now) (labels_view labels.now) (clauses_view clauses.now))) }
{
    let scratch = context.scratch(0);
    let number = scratch.following();
    first_clause(output, scratch.current(), number, clauses)?;
    output.push(Instr::Block(None))?;
    long_clauses(context, output, alloc, labels, number, clauses)?;
    output.push(Instr::End)
}

// The local `number` has the number of the first clause that is run.
#[cycle(statements)]
fn long_clauses<'l>(
    context: &Context<'_, '_, '_>,
    output: &mut Output,
    alloc: Global,
    labels: &'l Labels<'l>,
    number: usize,
    clauses: &'l [Clause],
) -> Result<(), AllocError>
    requires number_is { number ≡ code.number_local context.now.size (scope_in context.now) }
    requires narrow { EachIn IsNarrow (code.long_code context.now.size (scope_in context.now) (labels_view labels.now) 0 (clauses_view clauses.now)) }
    ensures { OnOk result (output.new ≡ output.old ++ flat (code.long_code context.now.size (scope_in context.now) (labels_view labels.now) 0 (clauses_view clauses.now))) }
{
    let left = Labels::Inside(Open::Breakable, labels);
    let inside = Labels::Inside(Open::Plainly(1), &left);
    for (j, clause) in clauses.iter().enumerate() {
        reached(output, number, j)?;
        output.push(Instr::If(None))?;
        emit_stmts(context, output, alloc, &inside, clause.body.as_slice())?;
        all_further(output, number)?;
        output.push(Instr::End)?;
    }
    Ok(())
}

// A switch of at most so many clauses has a block for each.
const MOST_BLOCKS: usize = 280;
