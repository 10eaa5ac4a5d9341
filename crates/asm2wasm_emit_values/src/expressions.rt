//! The code of expressions.
ghost use Rattle.std.specs.Prelude.{◌≡◌, ◌++◌, true, false, OnOk};
ghost use Rattle.sem_words.specs.Lists.{text_bytes};
ghost use Rattle.wasm_laws_trees.specs.Spelled.{flat};
ghost use Rattle.wasm_laws_write.specs.Lengths.{IsNarrow};
ghost use Rattle.wasm_laws_write.specs.Each.{EachIn};
ghost use Rattle.asm_lang.specs.Modules as form;
ghost use Rattle.asm_tree.specs.Views.{expr_view, exprs_view, links_view};
ghost use Rattle.asm2wasm_translation.specs.Values.{expr_code, arguments_code, links_code, comma_code};
ghost use Rattle.asm2wasm_emit_values.specs.Contexts.{scope_in};
ghost use Rattle.asm2wasm_emit_values.specs.Indices.{index_code};

use crate::context::Context;
use crate::forms::{IndexForm, index_form, is_or_zero};
use crate::leaves::{emit_decimal, emit_literal, emit_literal_place, emit_variable};
use crate::meanings::{
    call_entry, call_named, drop_called, exponent, load_element, set_entry, store_element,
    stored_value,
};
use crate::operations::operate;
use crate::variables::{finish, put};
use asm_tree::{Expr, Link};
use asm2wasm_emit_pieces::{Output, after_operand, aligned, before_operand, link};
use sem_words::{JsOp, JsUnary, Text};
use std::alloc::AllocError;
use wasm_lang::ValType;
use wasm_tree::Instr;

/// The code of an expression, at this depth of calls of tables. Its value is left on the stack where it is wanted.
/// Want of memory is the one error.
#[cycle(expressions)]
pub fn emit(
    context: &Context<'_, '_, '_>,
    output: &mut Output,
    wanted: bool,
    depth: usize,
    expr: &Expr,
) -> Result<(), AllocError>
    requires narrow { EachIn IsNarrow (expr_code context.now.size (scope_in context.now) wanted depth (expr_view expr.now)) }
    ensures { OnOk result (output.new ≡ output.old ++ flat (expr_code context.now.size (scope_in context.now) wanted depth (expr_view expr.now))) }
{
    match expr {
        Expr::Lit(value) => emit_literal(output, wanted, *value),
        Expr::Decimal(_) => emit_decimal(output, wanted),
        Expr::Var(name) => emit_variable(context, output, wanted, name),
        Expr::Index(name, index) => emit_index(context, output, wanted, depth, name, index),
        Expr::Call(name, arguments) => {
            emit_call(context, output, wanted, depth, name, arguments.as_slice())
        }
        Expr::TableCall(name, index, arguments) => {
            emit_table_call(
                context,
                output,
                wanted,
                depth,
                name,
                index,
                arguments.as_slice(),
            )
        }
        Expr::Assign(name, value) => {
            emit(context, output, true, depth, value)?;
            put(context, output, wanted, name)
        }
        Expr::Store(name, index, value) => {
            emit_store(context, output, wanted, depth, name, index, value)
        }
        Expr::Unary(op, operand) => emit_unary(context, output, wanted, depth, *op, operand),
        Expr::Binary(op, left, right) => {
            emit_binary(context, output, wanted, depth, *op, left, right)
        }
        Expr::Chain(first, links) => {
            emit_chain(context, output, wanted, depth, first, links.as_slice())
        }
        Expr::Cond(condition, yes, no) => {
            emit_cond(context, output, wanted, depth, condition, yes, no)
        }
        Expr::Comma(parts) => emit_comma(context, output, wanted, depth, parts.as_slice()),
    }
}

#[cycle(expressions)]
fn emit_index(
    context: &Context<'_, '_, '_>,
    output: &mut Output,
    wanted: bool,
    depth: usize,
    name: &Text,
    index: &Expr,
) -> Result<(), AllocError>
    requires narrow { EachIn IsNarrow (expr_code context.now.size (scope_in context.now) wanted depth (form.index (text_bytes name.now) (expr_view index.now))) }
    ensures { OnOk result (output.new ≡ output.old ++ flat (expr_code context.now.size (scope_in context.now) wanted depth (form.index (text_bytes name.now) (expr_view index.now)))) }
{
    emit_place(context, output, depth, name, index)?;
    load_element(context, output, depth, name)?;
    finish(output, wanted)
}

// Where the element of an index begins: an index that is a shift is its left operand without the bits that are shifted away.
#[cycle(expressions)]
fn emit_place(
    context: &Context<'_, '_, '_>,
    output: &mut Output,
    depth: usize,
    name: &Text,
    index: &Expr,
) -> Result<(), AllocError>
    requires narrow { EachIn IsNarrow (index_code context.now.size (scope_in context.now) depth (text_bytes name.now) (expr_view index.now)) }
    ensures { OnOk result (output.new ≡ output.old ++ flat (index_code context.now.size (scope_in context.now) depth (text_bytes name.now) (expr_view index.now))) }
{
    let exponent = exponent(context, name);
    match index_form(index) {
        IndexForm::Literal(value) => emit_literal_place(output, exponent, value),
        IndexForm::Shifted(left) => {
            emit(context, output, true, depth, left)?;
            aligned(output, exponent)
        }
        IndexForm::Other => emit(context, output, true, depth, index),
    }
}

#[cycle(expressions)]
fn emit_call(
    context: &Context<'_, '_, '_>,
    output: &mut Output,
    wanted: bool,
    depth: usize,
    name: &Text,
    arguments: &[Expr],
) -> Result<(), AllocError>
    requires narrow { EachIn IsNarrow (expr_code context.now.size (scope_in context.now) wanted depth (form.call (text_bytes name.now) (exprs_view arguments.now))) }
    ensures { OnOk result (output.new ≡ output.old ++ flat (expr_code context.now.size (scope_in context.now) wanted depth (form.call (text_bytes name.now) (exprs_view arguments.now)))) }
{
    emit_arguments(context, output, depth, arguments)?;
    call_named(context, output, wanted, name, arguments.len())?;
    drop_called(context, output, wanted, name)
}

// The index of the entry waits in a scratch local while the arguments are computed.
#[cycle(expressions)]
fn emit_table_call(
    context: &Context<'_, '_, '_>,
    output: &mut Output,
    wanted: bool,
    depth: usize,
    name: &Text,
    index: &Expr,
    arguments: &[Expr],
) -> Result<(), AllocError>
    requires narrow { EachIn IsNarrow (expr_code context.now.size (scope_in context.now) wanted depth (form.table_call (text_bytes name.now) (expr_view index.now) (exprs_view arguments.now))) }
    ensures { OnOk result (output.new ≡ output.old ++ flat (expr_code context.now.size (scope_in context.now) wanted depth (form.table_call (text_bytes name.now) (expr_view index.now) (exprs_view arguments.now)))) }
{
    emit(context, output, true, depth, index)?;
    set_entry(context, output, depth, name)?;
    let inside = depth + 1;
    emit_arguments(context, output, inside, arguments)?;
    call_entry(context, output, depth, name)
}

#[cycle(expressions)]
fn emit_store(
    context: &Context<'_, '_, '_>,
    output: &mut Output,
    wanted: bool,
    depth: usize,
    name: &Text,
    index: &Expr,
    value: &Expr,
) -> Result<(), AllocError>
    requires narrow { EachIn IsNarrow (expr_code context.now.size (scope_in context.now) wanted depth (form.store (text_bytes name.now) (expr_view index.now) (expr_view value.now))) }
    ensures { OnOk result (output.new ≡ output.old ++ flat (expr_code context.now.size (scope_in context.now) wanted depth (form.store (text_bytes name.now) (expr_view index.now) (expr_view value.now)))) }
{
    emit_place(context, output, depth, name, index)?;
    emit(context, output, true, depth, value)?;
    store_element(context, output, depth, name)?;
    stored_value(context, output, wanted, depth)
}

#[cycle(expressions)]
fn emit_unary(
    context: &Context<'_, '_, '_>,
    output: &mut Output,
    wanted: bool,
    depth: usize,
    op: JsUnary,
    operand: &Expr,
) -> Result<(), AllocError>
    requires narrow { EachIn IsNarrow (expr_code context.now.size (scope_in context.now) wanted depth (form.unary op (expr_view operand.now))) }
    ensures { OnOk result (output.new ≡ output.old ++ flat (expr_code context.now.size (scope_in context.now) wanted depth (form.unary op (expr_view operand.now)))) }
{
    before_operand(output, op)?;
    emit(context, output, true, depth, operand)?;
    after_operand(output, op)?;
    finish(output, wanted)
}

#[cycle(expressions)]
fn emit_binary(
    context: &Context<'_, '_, '_>,
    output: &mut Output,
    wanted: bool,
    depth: usize,
    op: JsOp,
    left: &Expr,
    right: &Expr,
) -> Result<(), AllocError>
    requires narrow { EachIn IsNarrow (expr_code context.now.size (scope_in context.now) wanted depth (form.binary op (expr_view left.now) (expr_view right.now))) }
    ensures { OnOk result (output.new ≡ output.old ++ flat (expr_code context.now.size (scope_in context.now) wanted depth (form.binary op (expr_view left.now) (expr_view right.now)))) }
{
    emit(context, output, true, depth, left)?;
    let bare = is_or_zero(op, right);
    if bare {
        return finish(output, wanted);
    }
    emit(context, output, true, depth, right)?;
    operate(context, output, depth, op, left, right)?;
    finish(output, wanted)
}

#[cycle(expressions)]
fn emit_chain(
    context: &Context<'_, '_, '_>,
    output: &mut Output,
    wanted: bool,
    depth: usize,
    first: &Expr,
    links: &[Link],
) -> Result<(), AllocError>
    requires narrow { EachIn IsNarrow (expr_code context.now.size (scope_in context.now) wanted depth (form.chain (expr_view first.now) (links_view links.now))) }
    ensures { OnOk result (output.new ≡ output.old ++ flat (expr_code context.now.size (scope_in context.now) wanted depth (form.chain (expr_view first.now) (links_view links.now)))) }
{
    emit(context, output, true, depth, first)?;
    emit_links(context, output, depth, links)?;
    finish(output, wanted)
}

#[cycle(expressions)]
fn emit_cond(
    context: &Context<'_, '_, '_>,
    output: &mut Output,
    wanted: bool,
    depth: usize,
    condition: &Expr,
    yes: &Expr,
    no: &Expr,
) -> Result<(), AllocError>
    requires narrow { EachIn IsNarrow (expr_code context.now.size (scope_in context.now) wanted depth (form.cond (expr_view condition.now) (expr_view yes.now) (expr_view no.now))) }
    ensures { OnOk result (output.new ≡ output.old ++ flat (expr_code context.now.size (scope_in context.now) wanted depth (form.cond (expr_view condition.now) (expr_view yes.now) (expr_view no.now)))) }
{
    emit(context, output, true, depth, condition)?;
    output.push(Instr::If(Some(ValType::I32)))?;
    emit(context, output, true, depth, yes)?;
    output.push(Instr::Else)?;
    emit(context, output, true, depth, no)?;
    output.end_arms()?;
    finish(output, wanted)
}

#[cycle(expressions)]
fn emit_comma(
    context: &Context<'_, '_, '_>,
    output: &mut Output,
    wanted: bool,
    depth: usize,
    parts: &[Expr],
) -> Result<(), AllocError>
    requires narrow { EachIn IsNarrow (expr_code context.now.size (scope_in context.now) wanted depth (form.comma (exprs_view parts.now))) }
    ensures { OnOk result (output.new ≡ output.old ++ flat (expr_code context.now.size (scope_in context.now) wanted depth (form.comma (exprs_view parts.now)))) }
{
    emit_parts(context, output, depth, parts)?;
    finish(output, wanted)
}

// The value of the last part.
#[cycle(expressions)]
fn emit_parts(
    context: &Context<'_, '_, '_>,
    output: &mut Output,
    depth: usize,
    parts: &[Expr],
) -> Result<(), AllocError>
    requires narrow { EachIn IsNarrow (comma_code context.now.size (scope_in context.now) depth (exprs_view parts.now)) }
    ensures { OnOk result (output.new ≡ output.old ++ flat (comma_code context.now.size (scope_in context.now) depth (exprs_view parts.now))) }
{
    let count = parts.len();
    if count == 0 {
        return output.push(Instr::Unreachable);
    }
    let last = count - 1;
    for i in 0..last {
        emit(context, output, false, depth, &parts[i])?;
    }
    emit(context, output, true, depth, &parts[last])
}

// The values, from left to right.
#[cycle(expressions)]
fn emit_arguments(
    context: &Context<'_, '_, '_>,
    output: &mut Output,
    depth: usize,
    arguments: &[Expr],
) -> Result<(), AllocError>
    requires narrow { EachIn IsNarrow (arguments_code context.now.size (scope_in context.now) depth (exprs_view arguments.now)) }
    ensures { OnOk result (output.new ≡ output.old ++ flat (arguments_code context.now.size (scope_in context.now) depth (exprs_view arguments.now))) }
{
    for argument in arguments {
        emit(context, output, true, depth, argument)?;
    }
    Ok(())
}

#[cycle(expressions)]
fn emit_links(
    context: &Context<'_, '_, '_>,
    output: &mut Output,
    depth: usize,
    links: &[Link],
) -> Result<(), AllocError>
    requires narrow { EachIn IsNarrow (links_code context.now.size (scope_in context.now) depth (links_view links.now)) }
    ensures { OnOk result (output.new ≡ output.old ++ flat (links_code context.now.size (scope_in context.now) depth (links_view links.now))) }
{
    for next in links {
        emit(context, output, true, depth, &next.operand)?;
        link(output, next.minus)?;
    }
    Ok(())
}
