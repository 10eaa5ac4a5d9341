//! Operands that stand somewhere already, and operations on them.
ghost use Rattle.std.specs.Prelude.{◌≡◌, ◌||◌, OnOk, IfOk, if◌then◌else◌};
ghost use Rattle.asm_tree.specs.Views.{expr_view};
ghost use Rattle.asm2wasm_translation.specs.Values as translation;
ghost use Rattle.asm_run_code.specs.Names as code;
ghost use Rattle.asm_run_code.specs.Operators as operators;
ghost use Rattle.asm_run_code.specs.Values as values;
ghost use Rattle.asm_run_names.specs.Names.{scope_said};
ghost use Rattle.asm_run_emit_values.specs.Seats.{seat_view};
ghost use Rattle.asm_run_emit_values.specs.Singles as singles;
ghost use Rattle.asm_run_emit_values.specs.Pieces as pieces;

use crate::forms::{is_or_zero, is_unsigned};
use crate::output::Output;
use crate::words::low_word;
use asm_run_code::{Op, Operator};
use asm_run_names::{FunctionNames, next};
use asm_tree::Expr;
use heap_lang::ViewKind;
use sem_words::{JsOp, JsUnary};
use std::alloc::AllocError;

/// Where an operand stands.
#[derive(Clone, Copy)]
pub enum Seat {
    /// It is this number.
    Number(u32),
    /// In the slot of a local variable.
    Local(u32),
    Elsewhere,
}

/// The slot of an expression that is a local variable, also under `|0`.
#[tactic(auto, using(asm_tree::proofs::Views::views))]
pub fn local(names: &FunctionNames<'_, '_>, expr: &Expr) -> Option<u32>
    ensures { result ≡ code.local (scope_said names.now) (expr_view expr.now) }
{
    match expr {
        Expr::Var(name) => names.slot(name),
        Expr::Binary(op, left, right) => {
            if !is_or_zero(*op, right) {
                return None;
            }
            local(names, left)
        }
        Expr::Lit(_) => None,
        Expr::Decimal(_) => None,
        Expr::Index(_, _) => None,
        Expr::Call(_, _) => None,
        Expr::TableCall(_, _, _) => None,
        Expr::Assign(_, _) => None,
        Expr::Store(_, _, _) => None,
        Expr::Unary(_, _) => None,
        Expr::Chain(_, _) => None,
        Expr::Cond(_, _, _) => None,
        Expr::Comma(_) => None,
    }
}

/// Where an expression stands as an operand.
#[tactic(auto, using(asm_tree::proofs::Views::views))]
pub fn seat_of(names: &FunctionNames<'_, '_>, expr: &Expr) -> Seat
    ensures { seat_view result ≡ code.seat (scope_said names.now) (expr_view expr.now) }
{
    match expr {
        Expr::Lit(value) => Seat::Number(low_word(*value)),
        Expr::Var(_) => seat_in(names, expr),
        Expr::Binary(_, _, _) => seat_in(names, expr),
        Expr::Decimal(_) => Seat::Elsewhere,
        Expr::Index(_, _) => Seat::Elsewhere,
        Expr::Call(_, _) => Seat::Elsewhere,
        Expr::TableCall(_, _, _) => Seat::Elsewhere,
        Expr::Assign(_, _) => Seat::Elsewhere,
        Expr::Store(_, _, _) => Seat::Elsewhere,
        Expr::Unary(_, _) => Seat::Elsewhere,
        Expr::Chain(_, _) => Seat::Elsewhere,
        Expr::Cond(_, _, _) => Seat::Elsewhere,
        Expr::Comma(_) => Seat::Elsewhere,
    }
}

// That of an expression that may be a local variable.
fn seat_in(names: &FunctionNames<'_, '_>, expr: &Expr) -> Seat
    ensures { seat_view result ≡ code.seat_at (code.local (scope_said names.now) (expr_view expr.now)) }
{
    match local(names, expr) {
        Some(slot) => Seat::Local(slot),
        None => Seat::Elsewhere,
    }
}

/// Whether an operand has to be computed.
pub fn is_elsewhere(seat: Seat) -> bool
    ensures { result ≡ pieces.is_elsewhere (seat_view seat) }
{
    match seat {
        Seat::Number(_) => false,
        Seat::Local(_) => false,
        Seat::Elsewhere => true,
    }
}

/// Whether the value of a store has to be computed: it isn't a variable.
pub fn is_far(seat: Seat) -> bool
    ensures { result ≡ pieces.is_far (seat_view seat) }
{
    match seat {
        Seat::Number(_) => true,
        Seat::Local(_) => false,
        Seat::Elsewhere => true,
    }
}

/// The slot of the value of a store.
pub fn value_slot(seat: Seat, free: u32) -> Result<u32, AllocError>
    ensures { IfOk result (λ slot. slot ≡ pieces.value_slot (seat_view seat) free) }
{
    match seat {
        Seat::Number(_) => next(free),
        Seat::Local(slot) => Ok(slot),
        Seat::Elsewhere => next(free),
    }
}

/// The slot of the first of two operands, where it stays there before the second.
pub fn place_before(names: &FunctionNames<'_, '_>, first: &Expr, second: Seat) -> Option<u32>
    ensures { result ≡ values.stays_by (seat_view second) (code.local (scope_said names.now) (expr_view first.now)) }
{
    match second {
        Seat::Elsewhere => None,
        Seat::Number(_) => local(names, first),
        Seat::Local(_) => local(names, first),
    }
}

/// The slot of the index of a store, where it stays there before the value.
pub fn index_place(names: &FunctionNames<'_, '_>, index: &Expr, value: Seat) -> Option<u32>
    ensures { result ≡ pieces.index_place (seat_view value) (code.local (scope_said names.now) (expr_view index.now)) }
{
    match value {
        Seat::Local(_) => local(names, index),
        Seat::Elsewhere | Seat::Number(_) => None,
    }
}

/// The slot that is asked for, or else the first free one.
pub fn into(wanted: Option<u32>, free: u32) -> u32
    ensures { result ≡ values.into wanted free }
{
    match wanted {
        Some(slot) => slot,
        None => free,
    }
}

/// The value in a slot, in the one that is asked for.
pub fn put_copy(output: &mut Output, wanted: Option<u32>, from: u32) -> Result<(), AllocError>
    ensures { OnOk result (output.new ≡ values.copied wanted from output.old) }
{
    match wanted {
        None => Ok(()),
        Some(to) => {
            if to == from {
                return Ok(());
            }
            output.put(Op::Copy { to, from })
        }
    }
}

/// The operator of two operands.
pub fn operator_of(op: JsOp, left: &Expr, right: &Expr) -> Operator
    ensures { result ≡ operators.operator_of op (translation.is_unsigned (expr_view left.now) || translation.is_unsigned (expr_view right.now)) }
{
    let unsigned = is_unsigned(left) || is_unsigned(right);
    chosen(op, unsigned)
}

fn chosen(op: JsOp, unsigned: bool) -> Operator
    ensures { result ≡ operators.operator_of op unsigned }
{
    match op {
        JsOp::Add => Operator::Add,
        JsOp::Sub => Operator::Sub,
        JsOp::Mul => Operator::Mul,
        JsOp::Or => Operator::Or,
        JsOp::And => Operator::And,
        JsOp::Xor => Operator::Xor,
        JsOp::Shl => Operator::Shl,
        JsOp::Sar => Operator::ShrS,
        JsOp::Shr => Operator::ShrU,
        JsOp::Eq => Operator::Eq,
        JsOp::Ne => Operator::Ne,
        JsOp::Div => either(unsigned, Operator::QuotientU, Operator::QuotientS),
        JsOp::Rem => either(unsigned, Operator::RestU, Operator::RestS),
        JsOp::Lt => either(unsigned, Operator::LtU, Operator::LtS),
        JsOp::Le => either(unsigned, Operator::LeU, Operator::LeS),
        JsOp::Gt => either(unsigned, Operator::GtU, Operator::GtS),
        JsOp::Ge => either(unsigned, Operator::GeU, Operator::GeS),
    }
}

fn either(unsigned: bool, first: Operator, second: Operator) -> Operator
    ensures { result ≡ (if unsigned then first else second) }
{
    if unsigned { first } else { second }
}

/// An operation on one operand, as far as it is known before the slot of that operand.
#[derive(Clone, Copy)]
pub enum Single {
    Element { kind: ViewKind, to: u32 },
    Prefix { op: JsUnary, to: u32 },
    Zeros { to: u32 },
    /// Goes there where the operand is 0.
    Unless { at: u32 },
}

/// The operation on what stands in a slot.
pub fn single_op(single: Single, from: u32) -> Op
    ensures { result ≡ singles.single_op single from }
{
    match single {
        Single::Element { kind, to } => Op::ReadElement {
            kind,
            to,
            index: from,
        },
        Single::Prefix { op, to } => prefixed(op, to, from),
        Single::Zeros { to } => Op::Zeros { to, from },
        Single::Unless { at } => Op::Unless { slot: from, at },
    }
}

fn prefixed(op: JsUnary, to: u32, from: u32) -> Op
    ensures { result ≡ values.prefixed op to from }
{
    match op {
        JsUnary::Neg => Op::Negate { to, from },
        JsUnary::BitNot => Op::Complement { to, from },
        JsUnary::Not => Op::ApplyNumber {
            operator: Operator::Eq,
            to,
            left: from,
            word: 0,
        },
        JsUnary::Plus => Op::Copy { to, from },
    }
}

/// The operator of a further operand of a chain.
pub fn link_operator(minus: bool) -> Operator
    ensures { result ≡ operators.link_operator minus }
{
    if minus { Operator::Sub } else { Operator::Add }
}

/// Where the value of a part of a comma expression is wanted, by how many come after it: that of the last alone.
pub fn part_wanted(after: usize, wanted: Option<u32>) -> Option<u32>
    ensures { result ≡ pieces.part_wanted after wanted }
{
    if after == 0 { wanted } else { None }
}
