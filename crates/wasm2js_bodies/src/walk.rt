//! The walk over a body, from one instruction to the next and into blocks.
ghost use Rattle.std.specs.Prelude.{◌≡◌, ◌≤◌, ◌∷◌, [], Some, slice_get, vec_len, IfOk};
ghost use Rattle.wasm_lang.specs.Instructions as flat;
ghost use Rattle.wasm2js_build.specs.Blocks.{statements_of};
ghost use Rattle.wasm2js_build.specs.Growing.{held_of};
ghost use Rattle.wasm2js_jumps.specs.Aims.{aim_view, aims_view};
ghost use Rattle.wasm2js_operands.specs.Operands.{over, IsKept};
ghost use Rattle.wasm2js_bodies.specs.Walks.{IsInside};
ghost use Rattle.wasm2js_bodies.specs.Steps.{Ends, IsStep};

use crate::branches::topmost;
use crate::closing::{again, close_block, close_if, close_loop, enter, past};
use crate::kinds::{Kind, kind_of};
use crate::singles::{
    Next, Walk, do_branch, do_branch_by_index, do_branch_if, do_call, do_call_indirect, do_end,
    do_plain, do_return, do_unreachable, place_after,
};
use std::alloc::AllocError;
use wasm_lang::ValType;
use wasm_run_flat::Body;
use wasm2js_build::LateBlock;
use wasm2js_jumps::Aim;
use wasm2js_operands::remove;

/// The statements of the code from a place on to the end of its block, and whether that is reached.
#[cycle(walk)]
pub fn put_code(
    walk: &Walk<'_>,
    body: &Body,
    types: &mut Vec<ValType>,
    aims: &mut Vec<Aim>,
    base: usize,
    at: usize,
    text: &mut LateBlock,
) -> Result<bool, AllocError>
    requires inside { IsInside body.now at }
    requires there { base ≤ vec_len types.old }
    ensures kept { IfOk result (λ _. IsKept base types.old.items types.new.items) }
    ensures aims { IfOk result (λ _. aims.new.items ≡ aims.old.items) }
    ensures value { IfOk result (λ reached. Ends reached walk.now body.now at (aims_view aims.old.items) base (over base types.old.items) (held_of text.old) (statements_of text.old.block) (statements_of text.new.block)) }
{
    let mut place = at;
    loop {
        match step(walk, body, types, aims, base, place, text)? {
            Next::At(next) => place = next,
            Next::Over(reached) => return Ok(reached),
        }
    }
}

// The instruction at a place.
#[cycle(walk)]
fn step(
    walk: &Walk<'_>,
    body: &Body,
    types: &mut Vec<ValType>,
    aims: &mut Vec<Aim>,
    base: usize,
    at: usize,
    text: &mut LateBlock,
) -> Result<Next, AllocError>
    requires inside { IsInside body.now at }
    requires there { base ≤ vec_len types.old }
    ensures kept { IfOk result (λ _. IsKept base types.old.items types.new.items) }
    ensures aims { IfOk result (λ _. aims.new.items ≡ aims.old.items) }
    ensures value { IfOk result (λ next. IsStep next walk.now body.now at (aims_view aims.old.items) base (over base types.old.items) (over base types.new.items) (held_of text.old) (held_of text.new) (statements_of text.old.block) (statements_of text.new.block)) }
{
    let Some(instr) = body.get(at) else {
        return Ok(Next::Over(true));
    };
    match kind_of(instr) {
        Kind::Plain => Ok(do_plain(walk, body, types, base, at, instr, text)?),
        Kind::Unreachable => Ok(do_unreachable(walk, body, at, text)?),
        Kind::Block(result) => Ok(do_block(walk, body, types, aims, base, at, result, text)?),
        Kind::Loop(result) => Ok(do_loop(walk, body, types, aims, base, at, result, text)?),
        Kind::If(result) => Ok(do_if(walk, body, types, aims, base, at, result, text)?),
        Kind::Else => Ok(do_end(walk, body, types, aims, base, at, text)?),
        Kind::End => Ok(do_end(walk, body, types, aims, base, at, text)?),
        Kind::Br(label) => Ok(do_branch(walk, body, types, aims, base, at, label, text)?),
        Kind::BrIf(label) => Ok(do_branch_if(walk, body, types, aims, base, at, label, text)?),
        Kind::BrTable(labels, default) => {
            let labels = labels.as_slice();
            Ok(do_branch_by_index(walk, body, types, aims, base, at, labels, default, text)?)
        }
        Kind::Return => Ok(do_return(walk, body, types, base, at, text)?),
        Kind::Call(function) => Ok(do_call(walk, body, types, base, at, function, text)?),
        Kind::CallIndirect(number) => {
            Ok(do_call_indirect(walk, body, types, base, at, number, text)?)
        }
    }
}

// What stands inside a block or an arm, under its aim.
#[cycle(walk)]
fn put_inside(
    walk: &Walk<'_>,
    body: &Body,
    types: &mut Vec<ValType>,
    aims: &mut Vec<Aim>,
    aim: Aim,
    at: usize,
    text: &mut LateBlock,
) -> Result<bool, AllocError>
    requires { IsInside body.now at }
    ensures types { IfOk result (λ _. types.new.items ≡ types.old.items) }
    ensures aims { IfOk result (λ _. aims.new.items ≡ aims.old.items) }
    ensures value { IfOk result (λ reached. Ends reached walk.now body.now at (aim_view aim ∷ aims_view aims.old.items) (vec_len types.old) [] (held_of text.old) (statements_of text.old.block) (statements_of text.new.block)) }
{
    let count = aims.len();
    let base = types.len();
    enter(aims, aim)?;
    let reached = put_code(walk, body, types, aims, base, at, text)?;
    aims.truncate(count);
    types.truncate(base);
    Ok(reached)
}

// `block`
#[cycle(walk)]
fn do_block(
    walk: &Walk<'_>,
    body: &Body,
    types: &mut Vec<ValType>,
    aims: &mut Vec<Aim>,
    base: usize,
    at: usize,
    result_type: Option<ValType>,
    text: &mut LateBlock,
) -> Result<Next, AllocError>
    requires inside { IsInside body.now at }
    requires there { base ≤ vec_len types.old }
    requires here { slice_get body.now at ≡ Some (flat.block result_type) }
    ensures kept { IfOk result (λ _. IsKept base types.old.items types.new.items) }
    ensures aims { IfOk result (λ _. aims.new.items ≡ aims.old.items) }
    ensures value { IfOk result (λ next. IsStep next walk.now body.now at (aims_view aims.old.items) base (over base types.old.items) (over base types.new.items) (held_of text.old) (held_of text.new) (statements_of text.old.block) (statements_of text.new.block)) }
{
    let first = place_after(body, at);
    let mut inner = text.begin_block()?;
    let aim = past(types, result_type);
    put_inside(walk, body, types, aims, aim, first, &mut inner)?;
    close_block(
        walk.alloc,
        aims,
        types,
        base,
        result_type,
        inner.block,
        &mut text.block,
    )?;
    Ok(Next::At(body.past_end(at)))
}

// `loop`
#[cycle(walk)]
fn do_loop(
    walk: &Walk<'_>,
    body: &Body,
    types: &mut Vec<ValType>,
    aims: &mut Vec<Aim>,
    base: usize,
    at: usize,
    result_type: Option<ValType>,
    text: &mut LateBlock,
) -> Result<Next, AllocError>
    requires inside { IsInside body.now at }
    requires there { base ≤ vec_len types.old }
    requires here { slice_get body.now at ≡ Some (flat.loop result_type) }
    ensures kept { IfOk result (λ _. IsKept base types.old.items types.new.items) }
    ensures aims { IfOk result (λ _. aims.new.items ≡ aims.old.items) }
    ensures value { IfOk result (λ next. IsStep next walk.now body.now at (aims_view aims.old.items) base (over base types.old.items) (over base types.new.items) (held_of text.old) (held_of text.new) (statements_of text.old.block) (statements_of text.new.block)) }
{
    let first = place_after(body, at);
    text.write_all()?;
    let mut inner = LateBlock::new(walk.alloc);
    let aim = again(types);
    let reached = put_inside(walk, body, types, aims, aim, first, &mut inner)?;
    close_loop(
        walk.alloc,
        aims,
        types,
        base,
        result_type,
        inner.block,
        reached,
        &mut text.block,
    )?;
    Ok(Next::At(body.past_end(at)))
}

// `if`
#[cycle(walk)]
fn do_if(
    walk: &Walk<'_>,
    body: &Body,
    types: &mut Vec<ValType>,
    aims: &mut Vec<Aim>,
    base: usize,
    at: usize,
    result_type: Option<ValType>,
    text: &mut LateBlock,
) -> Result<Next, AllocError>
    requires inside { IsInside body.now at }
    requires there { base ≤ vec_len types.old }
    requires here { slice_get body.now at ≡ Some (flat.if_block result_type) }
    ensures kept { IfOk result (λ _. IsKept base types.old.items types.new.items) }
    ensures aims { IfOk result (λ _. aims.new.items ≡ aims.old.items) }
    ensures value { IfOk result (λ next. IsStep next walk.now body.now at (aims_view aims.old.items) base (over base types.old.items) (over base types.new.items) (held_of text.old) (held_of text.new) (statements_of text.old.block) (statements_of text.new.block)) }
{
    let first = place_after(body, at);
    let word = text.take_out(topmost(types, base));
    remove(types, base, 1);
    let aim = past(types, result_type);
    let mut yes = text.begin_block()?;
    put_inside(walk, body, types, aims, aim, first, &mut yes)?;
    let mut no = LateBlock::new(walk.alloc);
    put_inside(walk, body, types, aims, aim, body.other_arm(at), &mut no)?;
    close_if(
        walk.alloc,
        aims,
        types,
        base,
        result_type,
        word,
        yes.block,
        no.block,
        &mut text.block,
    )?;
    Ok(Next::At(body.past_end(at)))
}
