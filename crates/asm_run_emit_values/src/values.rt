//! The code of expressions, from its end.
ghost use Rattle.std.specs.Prelude.{◌≡◌, ◌∷◌, suc, length, Some, OnOk, IfOk};
ghost use Rattle.sem_words.specs.Lists.{text_bytes};
ghost use Rattle.sem_words.specs.Words.{word_of};
ghost use Rattle.asm_lang.specs.Modules as form;
ghost use Rattle.asm_tree.specs.Views.{expr_view, exprs_view, links_view};
ghost use Rattle.asm_lang_valid.specs.Typing.{named, exprs_length};
ghost use Rattle.asm_run_code.specs.declared.op.Op.TheVariants.{Number, Call, CallEntry, CallImport, Go};
ghost use Rattle.asm_run_code.specs.Names as code;
ghost use Rattle.asm_run_code.specs.Operators as operators;
ghost use Rattle.asm_run_code.specs.Values as values;
ghost use Rattle.asm_run_code.specs.Values.{value, arguments, product, zeros, sums, last, fetched, combined, linked, tested};
ghost use Rattle.asm_run_names.specs.Names.{scope_said};
ghost use Rattle.asm_run_names.specs.Callees.{callee_of};
ghost use Rattle.asm_run_emit_values.specs.Seats.{seat_view};
ghost use Rattle.asm_run_emit_values.specs.Singles.{single_op};
ghost use Rattle.asm_run_emit_values.specs.Pieces as pieces;

use crate::forms::is_or_zero;
use crate::operands::{
    Seat, Single, index_place, into, is_elsewhere, is_far, link_operator, local, operator_of,
    part_wanted, place_before, put_copy, seat_of, single_op, value_slot,
};
use crate::output::Output;
use crate::words::low_word;
use asm_lang_valid::Builtin;
use asm_run_code::{Op, Operator};
use asm_run_names::{Callee, FunctionNames, next, small};
use asm_tree::{Expr, Link};
use heap_lang::ViewKind;
use sem_words::{JsOp, JsUnary, Text};
use std::alloc::AllocError;

/// The code of an expression before the code that is there. Slots from `free` on are free. Want of memory is the one error.
#[cycle(values)]
pub fn emit_value(
    names: &FunctionNames<'_, '_>,
    output: &mut Output,
    wanted: Option<u32>,
    free: u32,
    expr: &Expr,
) -> Result<(), AllocError>
    ensures { OnOk result (output.new ≡ value (scope_said names.now) wanted free (expr_view expr.now) output.old) }
{
    match expr {
        Expr::Lit(z) => put_number(output, wanted, free, *z),
        Expr::Decimal(_) => Ok(()),
        Expr::Var(name) => put_variable(names, output, wanted, free, name),
        Expr::Index(name, index) => emit_index(names, output, wanted, free, name, index),
        Expr::Call(name, all) => emit_call(names, output, wanted, free, name, all.as_slice()),
        Expr::TableCall(name, index, all) => {
            emit_table_call(names, output, wanted, free, name, index, all.as_slice())
        }
        Expr::Assign(name, value) => emit_assign(names, output, wanted, free, name, value),
        Expr::Store(name, index, value) => {
            emit_store(names, output, wanted, free, name, index, value)
        }
        Expr::Unary(op, operand) => emit_unary(names, output, wanted, free, *op, operand),
        Expr::Binary(op, left, right) => {
            emit_binary(names, output, wanted, free, *op, left, right)
        }
        Expr::Chain(first, links) => {
            emit_chain(names, output, wanted, free, first, links.as_slice())
        }
        Expr::Cond(condition, yes, no) => {
            emit_cond(names, output, wanted, free, condition, yes, no)
        }
        Expr::Comma(parts) => emit_parts(names, output, wanted, free, parts.as_slice()),
    }
}

fn put_number(
    output: &mut Output,
    wanted: Option<u32>,
    free: u32,
    z: i128,
) -> Result<(), AllocError>
    ensures { OnOk result (output.new ≡ Number (values.into wanted free) (word_of 32 z) ∷ output.old) }
{
    let to = into(wanted, free);
    let word = low_word(z);
    output.put(Op::Number { to, word })
}

fn put_variable(
    names: &FunctionNames<'_, '_>,
    output: &mut Output,
    wanted: Option<u32>,
    free: u32,
    name: &Text,
) -> Result<(), AllocError>
    ensures { OnOk result (output.new ≡ fetched (code.local_slot (scope_said names.now) (text_bytes name.now)) (code.global_slot (scope_said names.now) (text_bytes name.now)) (values.into wanted free) ∷ output.old) }
{
    let to = into(wanted, free);
    match names.slot(name) {
        Some(from) => output.put(Op::Copy { to, from }),
        None => {
            let global = names.global(name)?;
            output.put(Op::ReadGlobal { to, global })
        }
    }
}

/// The code of an operand that isn't read in place, in the first free slot.
#[cycle(values)]
pub fn emit_operand(
    names: &FunctionNames<'_, '_>,
    output: &mut Output,
    place: Option<u32>,
    free: u32,
    operand: &Expr,
) -> Result<(), AllocError>
    ensures { OnOk result (output.new ≡ pieces.out_of_place place (λ more. value (scope_said names.now) (Some free) free (expr_view operand.now) more) output.old) }
{
    match place {
        Some(_) => Ok(()),
        None => emit_value(names, output, Some(free), free, operand),
    }
}

#[cycle(values)]
fn emit_index(
    names: &FunctionNames<'_, '_>,
    output: &mut Output,
    wanted: Option<u32>,
    free: u32,
    name: &Text,
    index: &Expr,
) -> Result<(), AllocError>
    ensures { OnOk result (output.new ≡ value (scope_said names.now) wanted free (form.index (text_bytes name.now) (expr_view index.now)) output.old) }
{
    let kind = names.view_kind(name);
    let to = into(wanted, free);
    emit_single(names, output, free, Single::Element { kind, to }, index)
}

// An operation on an operand, which is read where it stands, or else in the first free slot.
#[cycle(values)]
fn emit_single(
    names: &FunctionNames<'_, '_>,
    output: &mut Output,
    free: u32,
    single: Single,
    operand: &Expr,
) -> Result<(), AllocError>
    ensures { OnOk result (output.new ≡ values.seated (code.local (scope_said names.now) (expr_view operand.now)) free (λ more. value (scope_said names.now) (Some free) free (expr_view operand.now) more) (λ a. single_op single a) output.old) }
{
    let place = local(names, operand);
    let from = into(place, free);
    output.put(single_op(single, from))?;
    emit_operand(names, output, place, free, operand)
}

#[cycle(values)]
fn emit_call(
    names: &FunctionNames<'_, '_>,
    output: &mut Output,
    wanted: Option<u32>,
    free: u32,
    name: &Text,
    all: &[Expr],
) -> Result<(), AllocError>
    ensures { OnOk result (output.new ≡ pieces.called_as (scope_said names.now) (callee_of (scope_said names.now).home (text_bytes name.now) (named (scope_said names.now) (text_bytes name.now))) (exprs_view all.now) wanted free output.old) }
{
    let callee = names.callee(name)?;
    match callee {
        Callee::Own(function) => {
            put_call(output, wanted, function, free)?;
            emit_arguments(names, output, free, all)
        }
        Callee::Foreign(member) => {
            put_foreign_call(output, wanted, member, all, free)?;
            emit_arguments(names, output, free, all)
        }
        Callee::Builtin(builtin) => {
            emit_builtin(names, output, into(wanted, free), free, builtin, all)
        }
        Callee::Nothing => emit_arguments(names, output, free, all),
    }
}

fn put_call(
    output: &mut Output,
    wanted: Option<u32>,
    function: u32,
    first: u32,
) -> Result<(), AllocError>
    ensures { OnOk result (output.new ≡ Call function first ∷ values.copied wanted first output.old) }
{
    put_copy(output, wanted, first)?;
    output.put(Op::Call { function, first })
}

fn put_foreign_call(
    output: &mut Output,
    wanted: Option<u32>,
    member: u32,
    all: &[Expr],
    first: u32,
) -> Result<(), AllocError>
    ensures { OnOk result (output.new ≡ CallImport member (exprs_length (exprs_view all.now)) first ∷ values.copied wanted first output.old) }
{
    put_copy(output, wanted, first)?;
    let count = small(all.len())?;
    output.put(Op::CallImport {
        member,
        count,
        first,
    })
}

#[cycle(values)]
fn emit_builtin(
    names: &FunctionNames<'_, '_>,
    output: &mut Output,
    to: u32,
    free: u32,
    builtin: Builtin,
    all: &[Expr],
) -> Result<(), AllocError>
    ensures { OnOk result (output.new ≡ pieces.built_in (scope_said names.now) builtin to free (exprs_view all.now) output.old) }
{
    match builtin {
        Builtin::Imul => emit_product(names, output, to, free, all),
        Builtin::Clz32 => emit_zeros(names, output, to, free, all),
    }
}

#[cycle(values)]
fn emit_product(
    names: &FunctionNames<'_, '_>,
    output: &mut Output,
    to: u32,
    free: u32,
    all: &[Expr],
) -> Result<(), AllocError>
    ensures { OnOk result (output.new ≡ product (scope_said names.now) to free (exprs_view all.now) output.old) }
{
    if all.len() < 2 {
        return Ok(());
    }
    emit_combined(names, output, Operator::Mul, to, free, &all[0], &all[1])
}

#[cycle(values)]
fn emit_zeros(
    names: &FunctionNames<'_, '_>,
    output: &mut Output,
    to: u32,
    free: u32,
    all: &[Expr],
) -> Result<(), AllocError>
    ensures { OnOk result (output.new ≡ zeros (scope_said names.now) to free (exprs_view all.now) output.old) }
{
    match all.first() {
        None => Ok(()),
        Some(operand) => emit_single(names, output, free, Single::Zeros { to }, operand),
    }
}

// Each into a slot, from the first free one on.
#[cycle(values)]
fn emit_arguments(
    names: &FunctionNames<'_, '_>,
    output: &mut Output,
    free: u32,
    all: &[Expr],
) -> Result<(), AllocError>
    ensures { OnOk result (output.new ≡ arguments (scope_said names.now) free (exprs_view all.now) output.old) }
{
    let mut i = all.len();
    while i > 0 {
        i -= 1;
        let slot = small(free as usize + i)?;
        emit_value(names, output, Some(slot), slot, &all[i])?;
    }
    Ok(())
}

// The index of the entry waits before the arguments.
#[cycle(values)]
fn emit_table_call(
    names: &FunctionNames<'_, '_>,
    output: &mut Output,
    wanted: Option<u32>,
    free: u32,
    name: &Text,
    index: &Expr,
    all: &[Expr],
) -> Result<(), AllocError>
    ensures { OnOk result (output.new ≡ value (scope_said names.now) wanted free (form.table_call (text_bytes name.now) (expr_view index.now) (exprs_view all.now)) output.old) }
{
    let first = put_entry_call(names, output, wanted, free, name)?;
    emit_arguments(names, output, first, all)?;
    emit_value(names, output, Some(free), free, index)
}

// The call of an entry whose number waits in the first free slot, and the slot of its first argument.
fn put_entry_call(
    names: &FunctionNames<'_, '_>,
    output: &mut Output,
    wanted: Option<u32>,
    free: u32,
    name: &Text,
) -> Result<u32, AllocError>
    ensures first { IfOk result (λ first. first ≡ suc free) }
    ensures put { OnOk result (output.new ≡ CallEntry (code.table_number (scope_said names.now).home (text_bytes name.now)) free (suc free) ∷ values.copied wanted (suc free) output.old) }
{
    let first = next(free)?;
    let table = small(names.module().table(name))?;
    put_copy(output, wanted, first)?;
    output.put(Op::CallEntry {
        table,
        index: free,
        first,
    })?;
    Ok(first)
}

#[cycle(values)]
fn emit_assign(
    names: &FunctionNames<'_, '_>,
    output: &mut Output,
    wanted: Option<u32>,
    free: u32,
    name: &Text,
    value: &Expr,
) -> Result<(), AllocError>
    ensures { OnOk result (output.new ≡ values.value (scope_said names.now) wanted free (form.assign (text_bytes name.now) (expr_view value.now)) output.old) }
{
    let to = put_assign(names, output, wanted, free, name)?;
    emit_value(names, output, Some(to), free, value)
}

// What follows the value that a variable gets, and the slot of that value.
fn put_assign(
    names: &FunctionNames<'_, '_>,
    output: &mut Output,
    wanted: Option<u32>,
    free: u32,
    name: &Text,
) -> Result<u32, AllocError>
    ensures to { IfOk result (λ to. to ≡ pieces.assigned_slot (code.local_slot (scope_said names.now) (text_bytes name.now)) wanted free) }
    ensures put { OnOk result (output.new ≡ pieces.assignment (code.local_slot (scope_said names.now) (text_bytes name.now)) (code.global_slot (scope_said names.now) (text_bytes name.now)) wanted free output.old) }
{
    match names.slot(name) {
        Some(to) => {
            put_copy(output, wanted, to)?;
            Ok(to)
        }
        None => {
            let global = names.global(name)?;
            let from = into(wanted, free);
            output.put(Op::WriteGlobal { global, from })?;
            Ok(from)
        }
    }
}

#[cycle(values)]
fn emit_store(
    names: &FunctionNames<'_, '_>,
    output: &mut Output,
    wanted: Option<u32>,
    free: u32,
    name: &Text,
    index: &Expr,
    value: &Expr,
) -> Result<(), AllocError>
    ensures { OnOk result (output.new ≡ values.value (scope_said names.now) wanted free (form.store (text_bytes name.now) (expr_view index.now) (expr_view value.now)) output.old) }
{
    let seat = seat_of(names, value);
    let place = put_store(names, output, wanted, free, name, index, seat)?;
    emit_next(names, output, is_far(seat), free, value)?;
    emit_operand(names, output, place, free, index)
}

// The write of a value that stands there, and where the index stands.
fn put_store(
    names: &FunctionNames<'_, '_>,
    output: &mut Output,
    wanted: Option<u32>,
    free: u32,
    name: &Text,
    index: &Expr,
    seat: Seat,
) -> Result<Option<u32>, AllocError>
    ensures place { IfOk result (λ place. place ≡ pieces.index_place (seat_view seat) (code.local (scope_said names.now) (expr_view index.now))) }
    ensures put { OnOk result (output.new ≡ pieces.written (seat_view seat) (code.local (scope_said names.now) (expr_view index.now)) (code.view_kind (named (scope_said names.now) (text_bytes name.now))) wanted free output.old) }
{
    let kind = names.view_kind(name);
    let place = index_place(names, index, seat);
    let from = value_slot(seat, free)?;
    put_copy(output, wanted, from)?;
    let at = into(place, free);
    output.put(Op::WriteElement {
        kind,
        index: at,
        from,
    })?;
    Ok(place)
}

#[cycle(values)]
fn emit_unary(
    names: &FunctionNames<'_, '_>,
    output: &mut Output,
    wanted: Option<u32>,
    free: u32,
    op: JsUnary,
    operand: &Expr,
) -> Result<(), AllocError>
    ensures { OnOk result (output.new ≡ value (scope_said names.now) wanted free (form.unary op (expr_view operand.now)) output.old) }
{
    let to = into(wanted, free);
    emit_single(names, output, free, Single::Prefix { op, to }, operand)
}

#[cycle(values)]
fn emit_binary(
    names: &FunctionNames<'_, '_>,
    output: &mut Output,
    wanted: Option<u32>,
    free: u32,
    op: JsOp,
    left: &Expr,
    right: &Expr,
) -> Result<(), AllocError>
    ensures { OnOk result (output.new ≡ value (scope_said names.now) wanted free (form.binary op (expr_view left.now) (expr_view right.now)) output.old) }
{
    let bare = is_or_zero(op, right);
    if bare {
        return emit_value(names, output, wanted, free, left);
    }
    let operator = operator_of(op, left, right);
    let to = into(wanted, free);
    emit_combined(names, output, operator, to, free, left, right)
}

// The first operand is read in place only where the second is a leaf.
#[cycle(values)]
fn emit_combined(
    names: &FunctionNames<'_, '_>,
    output: &mut Output,
    operator: Operator,
    to: u32,
    free: u32,
    left: &Expr,
    right: &Expr,
) -> Result<(), AllocError>
    ensures { OnOk result (output.new ≡ combined (code.seat (scope_said names.now) (expr_view right.now)) (code.local (scope_said names.now) (expr_view left.now)) operator to free (λ more. value (scope_said names.now) (Some free) free (expr_view left.now) more) (λ more. value (scope_said names.now) (Some (suc free)) (suc free) (expr_view right.now) more) output.old) }
{
    let seat = seat_of(names, right);
    let place = place_before(names, left, seat);
    let at = into(place, free);
    put_applied(output, operator, to, at, free, seat)?;
    emit_next(names, output, is_elsewhere(seat), free, right)?;
    emit_operand(names, output, place, free, left)
}

// The operation on two operands, of which the first stands in the slot `left`.
fn put_applied(
    output: &mut Output,
    operator: Operator,
    to: u32,
    left: u32,
    free: u32,
    seat: Seat,
) -> Result<(), AllocError>
    ensures { OnOk result (output.new ≡ pieces.applied (seat_view seat) operator to left free ∷ output.old) }
{
    match seat {
        Seat::Number(word) => output.put(Op::ApplyNumber {
            operator,
            to,
            left,
            word,
        }),
        Seat::Local(right) => output.put(Op::Apply {
            operator,
            to,
            left,
            right,
        }),
        Seat::Elsewhere => {
            let right = next(free)?;
            output.put(Op::Apply {
                operator,
                to,
                left,
                right,
            })
        }
    }
}

// The code of an operand in the slot after the first free one, where that is needed.
#[cycle(values)]
fn emit_next(
    names: &FunctionNames<'_, '_>,
    output: &mut Output,
    is_needed: bool,
    free: u32,
    operand: &Expr,
) -> Result<(), AllocError>
    ensures { OnOk result (output.new ≡ pieces.needed is_needed (λ more. value (scope_said names.now) (Some (suc free)) (suc free) (expr_view operand.now) more) output.old) }
{
    if !is_needed {
        return Ok(());
    }
    let slot = next(free)?;
    emit_value(names, output, Some(slot), slot, operand)
}

#[cycle(values)]
fn emit_chain(
    names: &FunctionNames<'_, '_>,
    output: &mut Output,
    wanted: Option<u32>,
    free: u32,
    first: &Expr,
    links: &[Link],
) -> Result<(), AllocError>
    ensures { OnOk result (output.new ≡ value (scope_said names.now) wanted free (form.chain (expr_view first.now) (links_view links.now)) output.old) }
{
    let place = stays(names, first, links);
    match place {
        Some(slot) => emit_links(names, output, wanted, slot, free, links),
        None => {
            emit_links(names, output, wanted, free, free, links)?;
            let to = sum_slot(wanted, free, links);
            emit_value(names, output, Some(to), free, first)
        }
    }
}

// The slot of the first operand of a chain, where it stays there.
fn stays(names: &FunctionNames<'_, '_>, first: &Expr, links: &[Link]) -> Option<u32>
    ensures { result ≡ values.stays (scope_said names.now) (code.local (scope_said names.now) (expr_view first.now)) (links_view links.now) }
{
    match links.first() {
        Some(link) => stays_before(names, first, &link.operand),
        None => None,
    }
}

// .. before this second operand.
fn stays_before(names: &FunctionNames<'_, '_>, first: &Expr, second: &Expr) -> Option<u32>
    ensures { result ≡ values.stays_by (code.seat (scope_said names.now) (expr_view second.now)) (code.local (scope_said names.now) (expr_view first.now)) }
{
    let seat = seat_of(names, second);
    place_before(names, first, seat)
}

// Where the sum goes that stands before these further operands.
fn sum_slot(wanted: Option<u32>, free: u32, links: &[Link]) -> u32
    ensures { result ≡ values.sum_slot wanted free (links_view links.now) }
{
    match links.first() {
        None => into(wanted, free),
        Some(_) => free,
    }
}

// The further operands, where the sum before them stands in `slot`.
#[cycle(values)]
fn emit_links(
    names: &FunctionNames<'_, '_>,
    output: &mut Output,
    wanted: Option<u32>,
    slot: u32,
    free: u32,
    links: &[Link],
) -> Result<(), AllocError>
    ensures { OnOk result (output.new ≡ sums (scope_said names.now) wanted slot free (links_view links.now) output.old) }
{
    let mut i = links.len();
    while i > 0 {
        i -= 1;
        let to = sum_slot(wanted, free, &links[i + 1..]);
        let left = sum_before(i, slot, free);
        emit_link(names, output, to, left, free, &links[i])?;
    }
    Ok(())
}

// The slot of the sum before the further operand of this number.
fn sum_before(i: usize, slot: u32, free: u32) -> u32
    ensures { result ≡ pieces.sum_before i slot free }
{
    if i == 0 { slot } else { free }
}

#[cycle(values)]
fn emit_link(
    names: &FunctionNames<'_, '_>,
    output: &mut Output,
    to: u32,
    left: u32,
    free: u32,
    link: &Link,
) -> Result<(), AllocError>
    ensures { OnOk result (output.new ≡ linked (code.seat (scope_said names.now) (expr_view link.now.operand)) (operators.link_operator link.now.minus) to left free (λ more. value (scope_said names.now) (Some (suc free)) (suc free) (expr_view link.now.operand) more) output.old) }
{
    let operator = link_operator(link.minus);
    let seat = seat_of(names, &link.operand);
    put_applied(output, operator, to, left, free, seat)?;
    emit_next(names, output, is_elsewhere(seat), free, &link.operand)
}

#[cycle(values)]
fn emit_cond(
    names: &FunctionNames<'_, '_>,
    output: &mut Output,
    wanted: Option<u32>,
    free: u32,
    condition: &Expr,
    yes: &Expr,
    no: &Expr,
) -> Result<(), AllocError>
    ensures { OnOk result (output.new ≡ value (scope_said names.now) wanted free (form.cond (expr_view condition.now) (expr_view yes.now) (expr_view no.now)) output.old) }
{
    let past = output.address();
    emit_value(names, output, wanted, free, no)?;
    let at = put_go(output, past)?;
    emit_value(names, output, wanted, free, yes)?;
    emit_test(names, output, free, condition, at)
}

// The end of the first arm of a choice, and the address of the second.
fn put_go(output: &mut Output, past: u32) -> Result<u32, AllocError>
    ensures at { IfOk result (λ at. at ≡ length output.old) }
    ensures put { OnOk result (output.new ≡ Go past ∷ output.old) }
{
    let at = output.address();
    output.put(Op::Go { at: past })?;
    Ok(at)
}

/// A condition: the code that is there goes on where it holds, and that at an address where it doesn't.
#[cycle(values)]
pub fn emit_test(
    names: &FunctionNames<'_, '_>,
    output: &mut Output,
    free: u32,
    condition: &Expr,
    at: u32,
) -> Result<(), AllocError>
    ensures { OnOk result (output.new ≡ tested (code.local (scope_said names.now) (expr_view condition.now)) free (λ more. value (scope_said names.now) (Some free) free (expr_view condition.now) more) at output.old) }
{
    emit_single(names, output, free, Single::Unless { at }, condition)
}

// All parts, and the value of the last one.
#[cycle(values)]
fn emit_parts(
    names: &FunctionNames<'_, '_>,
    output: &mut Output,
    wanted: Option<u32>,
    free: u32,
    parts: &[Expr],
) -> Result<(), AllocError>
    ensures { OnOk result (output.new ≡ last (scope_said names.now) wanted free (exprs_view parts.now) output.old) }
{
    let count = parts.len();
    let mut i = count;
    while i > 0 {
        let to = part_wanted(count - i, wanted);
        i -= 1;
        emit_value(names, output, to, free, &parts[i])?;
    }
    Ok(())
}
