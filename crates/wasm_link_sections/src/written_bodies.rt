// The section of bodies in the binary format, each body written as soon as it is moved.

ghost use Rattle.std.specs.Prelude.{◌≡◌, ◌++◌, length, OnOk};
ghost use Rattle.wasm_tree.specs.Views.{body_of, module_of};
ghost use Rattle.wasm_binary_write.specs.Spelling as spelling;
ghost use Rattle.wasm_binary_write.specs.Spelling.{items, section, sized};
ghost use Rattle.wasm_link_move.specs.Moved.{side_of};
ghost use Rattle.wasm_link_sections.specs.Made as made;

use crate::bodies::locals_and;
use crate::start::push_start;
use std::alloc::{AllocError, Global};
use wasm_binary_write::{push_items, push_locals, push_unsigned, put_size};
use wasm_link_bind::Numbers;
use wasm_link_move::{Side, push_code};
use wasm_link_rows::locals_count;
use wasm_tree::{Body, Module};

/// Appends the section of bodies.
pub fn put_bodies(alloc: Global, out: &mut Vec<u8>, numbers: &Numbers<'_>) -> Result<(), AllocError>
    ensures { OnOk result (out.new.items ≡ out.old.items ++ section 10 (λ b. sized (spelling.body b)) (made.module_made numbers.now).bodies) }
{
    let count = bodies_count(numbers);
    if count == 0 {
        return Ok(());
    }
    out.push(10)?;
    let start = out.len();
    push_unsigned(out, count)?;
    push_all(alloc, out, numbers)?;
    put_size(out, start)
}

fn bodies_count(numbers: &Numbers<'_>) -> usize
    ensures { result ≡ length (made.module_made numbers.now).bodies }
{
    let first = numbers.first().valid().module();
    let second = numbers.second().valid().module();
    let both = first.bodies.len() + second.bodies.len();
    match (first.start, second.start) {
        (Some(_), Some(_)) => both + 1,
        _ => both,
    }
}

// The bodies of both modules, and that of the one function more.
fn push_all(alloc: Global, out: &mut Vec<u8>, numbers: &Numbers<'_>) -> Result<(), AllocError>
    ensures { OnOk result (out.new.items ≡ out.old.items ++ items (λ b. sized (spelling.body b)) (made.module_made numbers.now).bodies) }
{
    let first = numbers.first().valid().module();
    let second = numbers.second().valid().module();
    let first_entries = numbers.first_entries();
    let second_entries = numbers.second_entries();
    push_side(alloc, out, numbers, Side::First, second_entries, first)?;
    push_side(alloc, out, numbers, Side::Second, first_entries, second)?;
    push_last(alloc, out, numbers)
}

// Those of one of the modules, where the other's table has so many entries.
fn push_side(
    alloc: Global,
    out: &mut Vec<u8>,
    numbers: &Numbers<'_>,
    side: Side,
    other: u32,
    own: &Module<'_>,
) -> Result<(), AllocError>
    ensures { OnOk result (out.new.items ≡ out.old.items ++ items (λ b. sized (spelling.body b)) (made.bodies_made numbers.now (side_of side) (module_of own.now) other 0 (module_of own.now).bodies)) }
{
    for (i, body) in own.bodies.as_slice().iter().enumerate() {
        push_sized_body(alloc, out, numbers, side, other, own, i, body)?;
    }
    Ok(())
}

// That of the one function more.
fn push_last(alloc: Global, out: &mut Vec<u8>, numbers: &Numbers<'_>) -> Result<(), AllocError>
    ensures { OnOk result (out.new.items ≡ out.old.items ++ items (λ b. sized (spelling.body b)) (made.start_bodies_made numbers.now numbers.now.first.start numbers.now.second.start)) }
{
    let mut bodies = Vec::new(alloc);
    push_start(alloc, &mut bodies, numbers)?;
    push_items(alloc, out, bodies.as_slice())
}

// One body behind its size.
fn push_sized_body(
    alloc: Global,
    out: &mut Vec<u8>,
    numbers: &Numbers<'_>,
    side: Side,
    other: u32,
    own: &Module<'_>,
    i: usize,
    body: &Body<'_>,
) -> Result<(), AllocError>
    ensures { OnOk result (out.new.items ≡ out.old.items ++ sized (spelling.body (made.body_made numbers.now (side_of side) (module_of own.now) other i (body_of body.now)))) }
{
    let start = out.len();
    let scratch = locals_count(own, i, body);
    push_body(alloc, out, numbers, side, other, scratch, body)?;
    put_size(out, start)
}

// One body, which has this scratch local.
fn push_body(
    alloc: Global,
    out: &mut Vec<u8>,
    numbers: &Numbers<'_>,
    side: Side,
    other: u32,
    scratch: u128,
    body: &Body<'_>,
) -> Result<(), AllocError>
    ensures { OnOk result (out.new.items ≡ out.old.items ++ spelling.body (made.body_with numbers.now (side_of side) scratch other (body_of body.now))) }
{
    if other == 0 {
        push_locals(alloc, out, body.locals.as_slice())?;
        push_code(alloc, out, numbers, side, scratch, &body.code)?;
        return Ok(());
    }
    // Its locals hang on its code: they are written behind it, and brought before it.
    let start = out.len();
    let indirect = push_code(alloc, out, numbers, side, scratch, &body.code)?;
    let end = out.len();
    let locals = locals_and(alloc, body.locals.as_slice(), indirect)?;
    push_locals(alloc, out, locals.as_slice())?;
    out[start..].rotate_left(end - start);
    Ok(())
}
