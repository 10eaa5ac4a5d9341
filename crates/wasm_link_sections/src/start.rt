// The start of a linked module, and the functions' types.

ghost use Rattle.std.specs.Prelude.{◌≡◌, ◌+◌, ◌≤◌, ◌^◌, ◌++◌, map, slice_get, IfOk, OnOk};
ghost use Rattle.sem_words.specs.Lists.{list_items};
ghost use Rattle.wasm_tree.specs.Views.{body_of, module_of};
ghost use Rattle.wasm_lang_valid.specs.ModuleRules.{function_types};
ghost use Rattle.wasm_link_code.specs.Numbers.{or_zero};
ghost use Rattle.wasm_link_code.specs.Linked.{start_types};
ghost use Rattle.wasm_link_sections.specs.Made as made;

use crate::values::{function_in, sum_of};
use sem_words::List;
use std::alloc::{AllocError, Global};
use wasm_lang::ImportKind;
use wasm_link_bind::Numbers;
use wasm_link_move::Side;
use wasm_tree::{Body, Code, Instr, Module};

/// The start: none, the only one's, or the one function more that calls both.
pub fn start(numbers: &Numbers<'_>) -> Option<u32>
    ensures { result ≡ made.start_made numbers.now numbers.now.first.start numbers.now.second.start }
{
    let first = numbers.first().valid().module().start;
    let second = numbers.second().valid().module().start;
    match (first, second) {
        (None, None) => None,
        (None, Some(b)) => Some(function_in(numbers, Side::Second, b)),
        (Some(a), None) => Some(function_in(numbers, Side::First, a)),
        (Some(_), Some(_)) => Some(numbers.count()),
    }
}

/// The types of the functions, with the one more.
pub fn functions(alloc: Global, numbers: &Numbers<'_>) -> Result<List<u32>, AllocError>
    ensures { IfOk result (λ list. list_items list ≡ made.functions_made numbers.now) }
{
    let first = numbers.first().valid().module();
    let second = numbers.second().valid().module();
    let mut types = Vec::from_slice(alloc, first.functions.as_slice())?;
    push_types(&mut types, first.types.len(), second.functions.as_slice())?;
    push_start_type(&mut types, numbers)?;
    Ok(List::from_vec(types))
}

// The type of the one function more, where both modules have a start.
fn push_start_type(types: &mut Vec<u32>, numbers: &Numbers<'_>) -> Result<(), AllocError>
    ensures { OnOk result (types.new.items ≡ types.old.items ++ start_types numbers.now numbers.now.first.start numbers.now.second.start) }
{
    let first = numbers.first().valid().module();
    let second = numbers.second().valid().module().start;
    if let (Some(a), Some(_)) = (first.start, second) {
        types.push(type_number(first, a))?;
    }
    Ok(())
}

// The numbers of types that stand so many after.
fn push_types(types: &mut Vec<u32>, past: usize, own: &[u32]) -> Result<(), AllocError>
    requires { past ≤ 2 ^ 63 }
    ensures { OnOk result (types.new.items ≡ types.old.items ++ map (λ t. made.capped (past + t)) own.now) }
{
    for t in own {
        types.push(sum_of(past, *t))?;
    }
    Ok(())
}

// The number of a function's type, 0 past the last.
fn type_number(module: &Module<'_>, function: u32) -> u32
    ensures { result ≡ or_zero (slice_get (function_types (module_of «module».now)) function) }
{
    let mut left = function as usize;
    for import in module.imports.as_slice() {
        if let ImportKind::Func(t) = import.kind {
            if left == 0 {
                return t;
            }
            left -= 1;
        }
    }
    match module.functions.get(left) {
        Some(t) => *t,
        None => 0,
    }
}

/// Appends the body of the one function more, where both modules have a start.
pub fn push_start<'m>(
    alloc: Global,
    bodies: &mut Vec<Body<'m>>,
    numbers: &Numbers<'_>,
) -> Result<(), AllocError>
    ensures { OnOk result (map body_of bodies.new.items ≡ map body_of bodies.old.items ++ made.start_bodies_made numbers.now numbers.now.first.start numbers.now.second.start) }
{
    let first = numbers.first().valid().module().start;
    let second = numbers.second().valid().module().start;
    if let (Some(a), Some(b)) = (first, second) {
        let mut code = Vec::with_capacity(alloc, 3)?;
        code.push(Instr::Call(function_in(numbers, Side::First, a)))?;
        code.push(Instr::Call(function_in(numbers, Side::Second, b)))?;
        code.push(Instr::End)?;
        bodies.push(Body {
            locals: List::new(alloc),
            code: Code::Own(List::from_vec(code)),
        })?;
    }
    Ok(())
}
