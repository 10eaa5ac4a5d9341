//! The steps of a walk over a body, one instruction that opens no block each.
ghost use Rattle.std.specs.Prelude.{◌≡◌, ◌≤◌, ◌+◌, ◌++◌, ◌⊎◌, ℕ, true, false, Some, List, slice_get, vec_len, IfOk};
ghost use Rattle.wasm_lang.specs.Instructions as flat;
ghost use Rattle.wasm_lang_valid.specs.Measures.{is_wide_mul_div};
ghost use Rattle.wasm_tree.specs.Views.{instr_of};
ghost use Rattle.wasm2js_translation.specs.Bodies as bodies;
ghost use Rattle.wasm2js_actions.specs.Scopes.{instruction_actions};
ghost use Rattle.wasm2js_build.specs.Blocks.{statements_of};
ghost use Rattle.wasm2js_build.specs.Growing.{run, waits_of, held_of, late_state};
ghost use Rattle.wasm2js_jumps.specs.Aims.{aims_view};
ghost use Rattle.wasm2js_operands.specs.Operands.{over, IsKept};
ghost use Rattle.wasm2js_operands.specs.Scopes.{context_in};
ghost use Rattle.wasm2js_bodies.specs.Kinds.{is_plain};
ghost use Rattle.wasm2js_bodies.specs.Walks.{IsInside};
ghost use Rattle.wasm2js_bodies.specs.Steps.{IsStep};

use crate::branches::{branch_by_index, branch_if, branch_to, end_code, give_back, topmost};
use crate::calls::{put_call, put_call_indirect};
use crate::waiting::keep_standing;
use std::alloc::{AllocError, Global};
use wasm_lang::ValType;
use wasm_run_flat::Body;
use wasm_tree::Instr;
use wasm2js_actions::{InstructionScope, instruction};
use wasm2js_build::{LateBlock, Straight};
use wasm2js_jumps::Aim;
use wasm2js_operands::{BodyScope, after_plain};

/// How many bytes the memory has, and how many cells each table.
#[derive(Clone, Copy)]
pub struct Sizes {
    pub bytes: u64,
    pub cells: u64,
}

/// What the whole walk over a body goes by.
#[derive(Clone, Copy)]
pub struct Walk<'a> {
    pub alloc: Global,
    pub sizes: Sizes,
    pub scope: &'a BodyScope<'a>,
}

/// How a walk goes on after an instruction.
#[derive(Clone, Copy)]
pub enum Next {
    /// At this place of the same block.
    At(usize),
    /// Its block is over. Whether its end is reached.
    Over(bool),
}

// The statements of a plain instruction.
fn put_instruction(
    walk: &Walk<'_>,
    types: &Vec<ValType>,
    base: usize,
    instr: &Instr,
    text: &mut LateBlock,
) -> Result<(), AllocError>
    requires there { base ≤ vec_len types.now }
    requires translated { is_wide_mul_div (instr_of instr.now) ≡ false }
    ensures { IfOk result (λ _. late_state text.new ≡ run (late_state text.old) (instruction_actions walk.now.sizes.bytes (context_in walk.now.scope.now) (waits_of text.old) (instr_of instr.now) base (over base types.now.items))) }
{
    let scope = InstructionScope {
        bytes: walk.sizes.bytes,
        locals: walk.scope.locals,
        globals: walk.scope.globals,
    };
    let stack = &types[base..];
    let mut straight = Straight::late(text);
    instruction(&mut straight, &scope, instr, base as u64, stack)?;
    *text = straight.into_late();
    Ok(())
}

/// A plain instruction.
pub fn do_plain(
    walk: &Walk<'_>,
    body: &Body,
    types: &mut Vec<ValType>,
    base: usize,
    at: usize,
    instr: &Instr,
    text: &mut LateBlock,
) -> Result<Next, AllocError>
    requires inside { IsInside body.now at }
    requires there { base ≤ vec_len types.old }
    requires plain { is_plain (instr_of instr.now) ≡ true }
    requires here { slice_get body.now at ≡ Some (instr_of instr.now) }
    ensures kept { IfOk result (λ _. IsKept base types.old.items types.new.items) }
    ensures step { (ls : List bodies.Aim) → IfOk result (λ next. IsStep next walk.now body.now at ls base (over base types.old.items) (over base types.new.items) (held_of text.old) (held_of text.new) (statements_of text.old.block) (statements_of text.new.block)) }
{
    let place = place_after(body, at);
    put_instruction(walk, types, base, instr, text)?;
    after_plain(walk.scope, types, base, instr)?;
    keep_standing(types, base, text);
    Ok(Next::At(place))
}

/// The next place of the body.
pub fn place_after(body: &Body, at: usize) -> usize
    requires { IsInside body.now at }
    ensures { result ≡ at + 1 }
{
    let _length = body.len();
    at + 1
}

/// `call`
pub fn do_call(
    walk: &Walk<'_>,
    body: &Body,
    types: &mut Vec<ValType>,
    base: usize,
    at: usize,
    function: u32,
    text: &mut LateBlock,
) -> Result<Next, AllocError>
    requires inside { IsInside body.now at }
    requires there { base ≤ vec_len types.old }
    requires here { slice_get body.now at ≡ Some (flat.call function) }
    ensures kept { IfOk result (λ _. IsKept base types.old.items types.new.items) }
    ensures step { (ls : List bodies.Aim) → IfOk result (λ next. IsStep next walk.now body.now at ls base (over base types.old.items) (over base types.new.items) (held_of text.old) (held_of text.new) (statements_of text.old.block) (statements_of text.new.block)) }
{
    let place = place_after(body, at);
    put_call(walk.alloc, walk.scope, types, base, function, text)?;
    Ok(Next::At(place))
}

/// `call_indirect`
pub fn do_call_indirect(
    walk: &Walk<'_>,
    body: &Body,
    types: &mut Vec<ValType>,
    base: usize,
    at: usize,
    number: u32,
    text: &mut LateBlock,
) -> Result<Next, AllocError>
    requires inside { IsInside body.now at }
    requires there { base ≤ vec_len types.old }
    requires here { slice_get body.now at ≡ Some (flat.call_indirect number) }
    ensures kept { IfOk result (λ _. IsKept base types.old.items types.new.items) }
    ensures step { (ls : List bodies.Aim) → IfOk result (λ next. IsStep next walk.now body.now at ls base (over base types.old.items) (over base types.new.items) (held_of text.old) (held_of text.new) (statements_of text.old.block) (statements_of text.new.block)) }
{
    let place = place_after(body, at);
    text.write_all()?;
    put_call_indirect(
        walk.alloc,
        walk.sizes.cells,
        walk.scope,
        types,
        base,
        number,
        &mut text.block,
    )?;
    Ok(Next::At(place))
}

/// `br_if`
pub fn do_branch_if(
    walk: &Walk<'_>,
    body: &Body,
    types: &mut Vec<ValType>,
    aims: &[Aim],
    base: usize,
    at: usize,
    label: u32,
    text: &mut LateBlock,
) -> Result<Next, AllocError>
    requires inside { IsInside body.now at }
    requires there { base ≤ vec_len types.old }
    requires here { slice_get body.now at ≡ Some (flat.br_if label) }
    ensures kept { IfOk result (λ _. IsKept base types.old.items types.new.items) }
    ensures step { IfOk result (λ next. IsStep next walk.now body.now at (aims_view aims.now) base (over base types.old.items) (over base types.new.items) (held_of text.old) (held_of text.new) (statements_of text.old.block) (statements_of text.new.block)) }
{
    let place = place_after(body, at);
    let word = text.take_out(topmost(types, base));
    text.write_all()?;
    branch_if(walk.alloc, aims, types, base, label, word, &mut text.block)?;
    Ok(Next::At(place))
}

/// `unreachable`
pub fn do_unreachable(
    walk: &Walk<'_>,
    body: &Body,
    at: usize,
    text: &mut LateBlock,
) -> Result<Next, AllocError>
    requires inside { IsInside body.now at }
    requires here { slice_get body.now at ≡ Some flat.unreachable }
    ensures { (ls : List bodies.Aim) (b : ℕ) (ts us : List ValType) → IfOk result (λ next. IsStep next walk.now body.now at ls b ts us (held_of text.old) (held_of text.new) (statements_of text.old.block) (statements_of text.new.block)) }
{
    text.write_all()?;
    text.block.stop(1)?;
    Ok(Next::Over(false))
}

/// `br`
pub fn do_branch(
    walk: &Walk<'_>,
    body: &Body,
    types: &Vec<ValType>,
    aims: &[Aim],
    base: usize,
    at: usize,
    label: u32,
    text: &mut LateBlock,
) -> Result<Next, AllocError>
    requires inside { IsInside body.now at }
    requires there { base ≤ vec_len types.now }
    requires here { slice_get body.now at ≡ Some (flat.br label) }
    ensures { (us : List ValType) → IfOk result (λ next. IsStep next walk.now body.now at (aims_view aims.now) base (over base types.now.items) us (held_of text.old) (held_of text.new) (statements_of text.old.block) (statements_of text.new.block)) }
{
    text.write_all()?;
    branch_to(walk.alloc, aims, types, base, label, &mut text.block)?;
    Ok(Next::Over(false))
}

/// `br_table`
pub fn do_branch_by_index(
    walk: &Walk<'_>,
    body: &Body,
    types: &mut Vec<ValType>,
    aims: &[Aim],
    base: usize,
    at: usize,
    labels: &[u32],
    default: u32,
    text: &mut LateBlock,
) -> Result<Next, AllocError>
    requires inside { IsInside body.now at }
    requires there { base ≤ vec_len types.old }
    requires here { slice_get body.now at ≡ Some (flat.br_table labels.now default) }
    ensures kept { IfOk result (λ _. IsKept base types.old.items types.new.items) }
    ensures step { (us : List ValType) → IfOk result (λ next. IsStep next walk.now body.now at (aims_view aims.now) base (over base types.old.items) us (held_of text.old) (held_of text.new) (statements_of text.old.block) (statements_of text.new.block)) }
{
    text.write_all()?;
    branch_by_index(
        walk.alloc,
        aims,
        types,
        base,
        labels,
        default,
        &mut text.block,
    )?;
    Ok(Next::Over(false))
}

/// `return`
pub fn do_return(
    walk: &Walk<'_>,
    body: &Body,
    types: &Vec<ValType>,
    base: usize,
    at: usize,
    text: &mut LateBlock,
) -> Result<Next, AllocError>
    requires inside { IsInside body.now at }
    requires there { base ≤ vec_len types.now }
    requires here { slice_get body.now at ≡ Some flat.return }
    ensures { (ls : List bodies.Aim) (us : List ValType) → IfOk result (λ next. IsStep next walk.now body.now at ls base (over base types.now.items) us (held_of text.old) (held_of text.new) (statements_of text.old.block) (statements_of text.new.block)) }
{
    give_back(walk.alloc, walk.scope.returns, types, base, text)?;
    Ok(Next::Over(false))
}

/// `else` or `end`
pub fn do_end(
    walk: &Walk<'_>,
    body: &Body,
    types: &Vec<ValType>,
    aims: &[Aim],
    base: usize,
    at: usize,
    text: &mut LateBlock,
) -> Result<Next, AllocError>
    requires inside { IsInside body.now at }
    requires there { base ≤ vec_len types.now }
    requires here { (slice_get body.now at ≡ Some flat.else_mark) ⊎ (slice_get body.now at ≡ Some flat.end_mark) }
    ensures { (us : List ValType) → IfOk result (λ next. IsStep next walk.now body.now at (aims_view aims.now) base (over base types.now.items) us (held_of text.old) (held_of text.new) (statements_of text.old.block) (statements_of text.new.block)) }
{
    end_code(walk.alloc, aims, types, base, text)?;
    Ok(Next::Over(true))
}
