// The bodies of functions, and the start.

ghost use Rattle.std.specs.Prelude.{◌≡◌, ◌++◌, map, IfOk, OnOk};
ghost use Rattle.sem_words.specs.Lists.{list_items};
ghost use Rattle.wasm_tree.specs.Views.{body_of, code_of, locals_in, module_of};
ghost use Rattle.wasm_link_code.specs.Code.{scratch};
ghost use Rattle.wasm_link_move.specs.Moved.{side_of};
ghost use Rattle.wasm_link_sections.specs.Made as made;

use sem_words::List;
use std::alloc::{AllocError, Global};
use wasm_lang::ValType;
use wasm_link_bind::Numbers;
use wasm_link_move::{Side, moved_code};
use wasm_link_rows::{has_indirect, locals_count};
use wasm_tree::{Body, Code, Module, Run};

/// Appends the bodies of one of the modules, where the other's table has so many entries.
pub fn push_bodies<'m>(
    alloc: Global,
    bodies: &mut Vec<Body<'m>>,
    numbers: &Numbers<'_>,
    side: Side,
    other: u32,
    own: &Module<'_>,
) -> Result<(), AllocError>
    ensures { OnOk result (map body_of bodies.new.items ≡ map body_of bodies.old.items ++ made.bodies_made numbers.now (side_of side) (module_of own.now) other 0 (module_of own.now).bodies) }
{
    for (i, body) in own.bodies.as_slice().iter().enumerate() {
        bodies.push(moved_body(alloc, numbers, side, other, own, i, body)?)?;
    }
    Ok(())
}

/// One body, with its moved code.
pub fn moved_body<'m>(
    alloc: Global,
    numbers: &Numbers<'_>,
    side: Side,
    other: u32,
    own: &Module<'_>,
    i: usize,
    body: &Body<'_>,
) -> Result<Body<'m>, AllocError>
    ensures { IfOk result (λ moved. body_of moved ≡ made.body_made numbers.now (side_of side) (module_of own.now) other i (body_of body.now)) }
{
    let locals = locals_count(own, i, body);
    let code = moved_code(alloc, numbers, side, locals, &body.code)?;
    Ok(Body {
        locals: locals_with(alloc, other, body)?,
        code: Code::Own(code),
    })
}

// The locals of a body, with the scratch local.
#[tactic(auto, using(crate::proofs::Scratch::scratch_is))]
fn locals_with(alloc: Global, other: u32, body: &Body<'_>) -> Result<List<Run>, AllocError>
    ensures { IfOk result (λ locals. locals_in (list_items locals) ≡ (body_of body.now).locals ++ scratch other (body_of body.now).code) }
{
    let needed = needs_scratch(alloc, other, &body.code)?;
    let locals = locals_and(alloc, body.locals.as_slice(), needed)?;
    Ok(locals)
}

// Whether a scratch local is needed: code calls by an entry, and the other's table has some.
fn needs_scratch(alloc: Global, other: u32, code: &Code<'_>) -> Result<bool, AllocError>
    ensures { IfOk result (λ needed. needed ≡ made.needs_scratch other (code_of code.now)) }
{
    if other == 0 {
        return Ok(false);
    }
    has_indirect(alloc, code)
}

/// The locals, and one more where it is needed.
pub fn locals_and(alloc: Global, locals: &[Run], needed: bool) -> Result<List<Run>, AllocError>
    ensures { IfOk result (λ list. locals_in (list_items list) ≡ locals_in locals.now ++ made.scratch_if needed) }
{
    let mut runs = Vec::from_slice(alloc, locals)?;
    push_scratch(&mut runs, needed)?;
    Ok(List::from_vec(runs))
}

#[tactic(auto, using(crate::proofs::Scratch::one_pushed, crate::proofs::Scratch::none_pushed))]
fn push_scratch(runs: &mut Vec<Run>, needed: bool) -> Result<(), AllocError>
    ensures { OnOk result (locals_in runs.new.items ≡ locals_in runs.old.items ++ made.scratch_if needed) }
{
    if !needed {
        return Ok(());
    }
    runs.push(Run {
        count: 1,
        kind: ValType::I32,
    })?;
    Ok(())
}
