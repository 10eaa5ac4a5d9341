//! Bodies of functions.
ghost use Rattle.std.specs.Prelude.{◌≡◌, ◌+◌, ◌++◌, length, replicate, map, Ok, Err, IfOk, OnOk, MatchResult};
ghost use Rattle.sem_words.specs.Lists.{list_items};
ghost use Rattle.wasm_lang.specs.Limits.{params_of};
ghost use Rattle.wasm_lang.specs.Reading as reading;
ghost use Rattle.wasm_lang.specs.ReadingModule as modules;
ghost use Rattle.wasm_tree.specs.Inputs.{input_of, IsRead, Continues};
ghost use Rattle.wasm_tree.specs.Views.{type_of, locals_in, body_of};
ghost use Rattle.wasm_binary_entries.specs.Lent.{source_of, IsLentBody, EachAt, Located};
ghost use Rattle.wasm_binary_entries.specs.Places.{code_place, body_place};
ghost use Rattle.wasm_binary_entries.specs.Sized.{body_head};
ghost use Rattle.wasm_binary_entries.specs.Views.{bodies_of};

use crate::code::code;
use crate::fields::{count, nothing_left, number, split};
use crate::room::list_for;
use sem_words::List;
use std::alloc::{AllocError, Global};
use wasm_tree::{Body, Fault, FuncType, Input, ReadError, Row, Run};

// The most locals of a function that this reader takes, with its parameters.
const MOST_LOCALS: usize = 60_000;

// A run more, unless it is of no locals.
fn push_run(list: &mut List<Run>, run: Run) -> Result<(), AllocError>
    ensures { OnOk result (locals_in (list_items list.new) ≡ locals_in (list_items list.old) ++ replicate run.count run.kind) }
{
    if run.count == 0 {
        return Ok(());
    }
    match list.push(run) {
        Ok(()) => Ok(()),
        Err(_) => Err(AllocError),
    }
}

// So many runs of locals, where the function has so many parameters.
fn runs<'a>(
    alloc: Global,
    input: Input<'a>,
    params: usize,
    n: u32,
) -> Result<(List<Run>, Input<'a>), ReadError>
    ensures value { IsRead (λ l. locals_in (list_items l)) result (modules.runs_field params n (input_of input.entry)) }
    ensures follows { IfOk result (λ x. Continues x.1 input.entry) }
{
    let mut list = list_for(alloc, n.min(1) as usize);
    let mut used = params;
    let mut rest = input;
    for _i in 0..n {
        let (count, after) = count(rest, used, MOST_LOCALS)?;
        let (kind, after) = after.val_type()?;
        if push_run(&mut list, Run { count, kind }).is_err() {
            return Err(ReadError::Memory);
        }
        used += count as usize;
        rest = after;
    }
    Ok((list, rest))
}

// The content of a body.
fn body_content<'a>(
    alloc: Global,
    input: Input<'a>,
    params: usize,
) -> Result<(Body<'a>, Input<'a>), ReadError>
    ensures value { IsRead body_of result (modules.body_content params (input_of input.entry)) }
    ensures lent { IfOk result (λ x. Located (code_place (input_of input.entry)) (input_of x.1) (λ place. IsLentBody (source_of input.entry) place x.0)) }
{
    let (n, rest) = number(input)?;
    let (locals, rest) = runs(alloc, rest, params, n)?;
    let (code, rest) = code(alloc, rest)?;
    Ok((Body { locals, code }, rest))
}

// A body's content, whose size has to fit its section, and what follows it.
fn body_part<'a>(input: Input<'a>) -> Result<(Input<'a>, Input<'a>), Fault>
    ensures value { MatchResult result (λ x. body_head (input_of input.entry) ≡ Ok (input_of x.0, input_of x.1)) (λ fault. body_head (input_of input.entry) ≡ Err fault) }
    ensures content { IfOk result (λ x. Continues x.0 input.entry) }
    ensures follows { IfOk result (λ x. Continues x.1 input.entry) }
{
    let (size, rest) = number(input)?;
    if size as usize > rest.bytes.len() {
        return Err(Fault {
            row: Row::SectionSize,
            at: input.at,
        });
    }
    let (content, after) = split(rest, size as usize);
    Ok((
        Input {
            at: rest.at,
            bytes: content,
        },
        after,
    ))
}

// A body, of a function with so many parameters.
fn body<'a>(
    alloc: Global,
    input: Input<'a>,
    params: usize,
) -> Result<(Body<'a>, Input<'a>), ReadError>
    ensures value { IsRead body_of result (modules.body_field params (input_of input.entry)) }
    ensures follows { IfOk result (λ x. Continues x.1 input.entry) }
    ensures lent { IfOk result (λ x. Located (body_place (input_of input.entry)) (input_of x.1) (λ place. IsLentBody (source_of input.entry) place x.0)) }
{
    let (content, after) = body_part(input)?;
    let (body, rest) = body_content(alloc, content, params)?;
    nothing_left(rest)?;
    Ok((body, after))
}

// The number of parameters of a type, by its number; 0 where there is no such type.
fn param_count(types: &[FuncType], number: u32) -> usize
    ensures { result ≡ params_of (map type_of types.now) number }
{
    match types.get(number as usize) {
        Some(function_type) => function_type.params.len(),
        None => 0,
    }
}

/// A body for each function, by the number of its type.
pub fn bodies<'a>(
    alloc: Global,
    types: &[FuncType],
    functions: &[u32],
    input: Input<'a>,
) -> Result<(List<Body<'a>>, Input<'a>), ReadError>
    ensures value { IsRead bodies_of result (modules.bodies_field (map type_of types.now) functions.now (input_of input.entry)) }
    ensures follows { IfOk result (λ x. Continues x.1 input.entry) }
    ensures lent { IfOk result (λ x. Located (reading.items_field body_place (length functions.now) (input_of input.entry)) (input_of x.1) (λ places. EachAt (IsLentBody (source_of input.entry)) places (list_items x.0))) }
{
    let mut list = List::new(alloc);
    let mut rest = input;
    for function in functions {
        let (item, after) = body(alloc, rest, param_count(types, *function))?;
        if list.push(item).is_err() {
            return Err(ReadError::Memory);
        }
        rest = after;
    }
    Ok((list, rest))
}
