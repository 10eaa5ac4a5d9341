//! Locals, globals and the choice between two operands.
ghost use Rattle.std.specs.Prelude.{◌≡◌, [], ◌∷◌, ◌++◌, ◌+◌, ◌<◌, ◌^◌, slice_get, reverse, IfOk};
ghost use Rattle.wasm2js_translation.specs.Words as words;
ghost use Rattle.wasm2js_translation.specs.Pairs as pairs;
ghost use Rattle.wasm2js_translation.specs.Pairs.{simples};
ghost use Rattle.wasm2js_translation.specs.Actions as code;
ghost use Rattle.wasm2js_nodes.specs.Names.{name_view};
ghost use Rattle.wasm2js_build.specs.Growing.{run, state_of};
ghost use Rattle.split_words.specs.Views.{pair_view};

use crate::depths::second_kind;
use split_words::{Pair, global_pair, local_pair, operand_pair, put_moved};
use std::alloc::AllocError;
use wasm_lang::{GlobalType, ValType};
use wasm2js_accesses::low;
use wasm2js_build::Straight;
use wasm2js_nodes::Name;
use wasm2js_terms::Term;

/// From a local to the operand of number d.
pub fn local_get(
    straight: &mut Straight,
    locals: &[ValType],
    local: u32,
    d: u64,
) -> Result<(), AllocError>
    ensures { IfOk result (λ _. state_of straight.new ≡ run (state_of straight.old) (simples (code.moved_if (slice_get locals.now local) (pairs.local_pair local) (pairs.operand_pair d)))) }
{
    moved_if(
        straight,
        local_kind(locals, local),
        local_pair(local as u64),
        operand_pair(d),
    )
}

/// From the operand of number d to a local.
pub fn local_set(
    straight: &mut Straight,
    locals: &[ValType],
    local: u32,
    d: u64,
) -> Result<(), AllocError>
    ensures { IfOk result (λ _. state_of straight.new ≡ run (state_of straight.old) (simples (code.moved_if (slice_get locals.now local) (pairs.operand_pair d) (pairs.local_pair local)))) }
{
    moved_if(
        straight,
        local_kind(locals, local),
        operand_pair(d),
        local_pair(local as u64),
    )
}

pub fn global_get(
    straight: &mut Straight,
    globals: &[GlobalType],
    global: u32,
    d: u64,
) -> Result<(), AllocError>
    ensures { IfOk result (λ _. state_of straight.new ≡ run (state_of straight.old) (simples (code.moved_if (code.kind_in (slice_get globals.now global)) (pairs.global_pair global) (pairs.operand_pair d)))) }
{
    moved_if(
        straight,
        global_kind(globals, global),
        global_pair(global as u64),
        operand_pair(d),
    )
}

pub fn global_set(
    straight: &mut Straight,
    globals: &[GlobalType],
    global: u32,
    d: u64,
) -> Result<(), AllocError>
    ensures { IfOk result (λ _. state_of straight.new ≡ run (state_of straight.old) (simples (code.moved_if (code.kind_in (slice_get globals.now global)) (pairs.operand_pair d) (pairs.global_pair global)))) }
{
    moved_if(
        straight,
        global_kind(globals, global),
        operand_pair(d),
        global_pair(global as u64),
    )
}

/// Of the operands of numbers d and d + 1, by the next one.
pub fn select(straight: &mut Straight, stack: &[ValType], d: u64) -> Result<(), AllocError>
    requires { d + 2 < 2 ^ 64 }
    ensures { IfOk result (λ _. state_of straight.new ≡ run (state_of straight.old) (simples (code.selected (slice_get (reverse stack.now) 1) (pairs.operand_pair d) (pairs.operand_pair (d + 1)) (code.low (d + 2))))) }
{
    selected(
        straight,
        second_kind(stack),
        operand_pair(d),
        operand_pair(d + 1),
        low(d + 2),
    )
}

// A value from one place to another, where its type is known.
fn moved_if(
    straight: &mut Straight,
    kind: Option<ValType>,
    from: Pair,
    to: Pair,
) -> Result<(), AllocError>
    ensures { IfOk result (λ _. state_of straight.new ≡ run (state_of straight.old) (simples (code.moved_if kind (pair_view from) (pair_view to)))) }
{
    match kind {
        None => Ok(()),
        Some(kind) => put_moved(straight, kind, from, to),
    }
}

// The type of a local.
fn local_kind(locals: &[ValType], local: u32) -> Option<ValType>
    ensures { result ≡ slice_get locals.now local }
{
    locals.get(local as usize).copied()
}

fn global_kind(globals: &[GlobalType], global: u32) -> Option<ValType>
    ensures { result ≡ code.kind_in (slice_get globals.now global) }
{
    match globals.get(global as usize) {
        None => None,
        Some(global) => Some(global.kind),
    }
}

// Of a and b, by the choice in c, in a.
fn selected(
    straight: &mut Straight,
    kind: Option<ValType>,
    a: Pair,
    b: Pair,
    c: Name,
) -> Result<(), AllocError>
    ensures { IfOk result (λ _. state_of straight.new ≡ run (state_of straight.old) (simples (code.selected kind (pair_view a) (pair_view b) (name_view c)))) }
{
    match kind {
        None => Ok(()),
        Some(ValType::I32) => put_chosen(straight, c, a.low, b.low),
        Some(ValType::I64) => {
            put_chosen(straight, c, a.low, b.low)?;
            put_chosen(straight, c, a.high, b.high)
        }
    }
}

fn put_chosen(straight: &mut Straight, c: Name, a: Name, b: Name) -> Result<(), AllocError>
    ensures { IfOk result (λ _. state_of straight.new ≡ run (state_of straight.old) (simples (words.put (name_view a) (words.choose (words.read (name_view c)) (words.read (name_view a)) (words.read (name_view b))) ∷ []))) }
{
    straight.put(
        a,
        &Term::choose(&Term::read(c), &Term::read(a), &Term::read(b)),
    )
}
