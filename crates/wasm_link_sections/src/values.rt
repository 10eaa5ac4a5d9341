// First values and offsets.

ghost use Rattle.std.specs.Prelude.{◌≡◌, ◌∷◌, ◌+◌, ◌≤◌, ◌^◌, [], map, IfOk};
ghost use Rattle.sem_words.specs.Lists.{list_items};
ghost use Rattle.wasm_lang.specs.Instructions.{end_mark};
ghost use Rattle.wasm_tree.specs.Views.{instr_of};
ghost use Rattle.wasm_link_move.specs.Moved.{side_of};
ghost use Rattle.wasm_link_sections.specs.Made as made;

use sem_words::List;
use std::alloc::{AllocError, Global};
use wasm_link_bind::Numbers;
use wasm_link_move::Side;
use wasm_tree::Instr;

/// The number of what a function of one of the modules stands for.
pub fn function_in(numbers: &Numbers<'_>, side: Side, function: u32) -> u32
    ensures { result ≡ made.function_in numbers.now (side_of side) function }
{
    match side {
        Side::First => numbers.function(function as usize),
        Side::Second => numbers.function(numbers.first().sizes().functions + function as usize),
    }
}

/// The number of a global of one of the modules.
pub fn global_in(numbers: &Numbers<'_>, side: Side, global: u32) -> u32
    ensures { result ≡ made.global_in numbers.now (side_of side) global }
{
    match side {
        Side::First => numbers.global(global as usize),
        Side::Second => numbers.global(numbers.first().sizes().globals + global as usize),
    }
}

/// The sum of two numbers, or the greatest number of 32 bits.
pub fn sum_of(first: usize, second: u32) -> u32
    requires { first ≤ 2 ^ 63 }
    ensures { result ≡ made.capped (first + second) }
{
    match u32::try_from(first + second as usize) {
        Ok(sum) => sum,
        Err(_) => u32::MAX,
    }
}

/// A first value of one of the modules.
pub fn value_in(
    alloc: Global,
    numbers: &Numbers<'_>,
    side: Side,
    init: &[Instr],
) -> Result<List<Instr>, AllocError>
    ensures { IfOk result (λ list. map instr_of (list_items list) ≡ made.value_made (made.global_in numbers.now (side_of side)) (map instr_of init.now)) }
{
    match init {
        [Instr::Const32(word), Instr::End] => ended(alloc, Instr::Const32(*word)),
        [Instr::Const64(word), Instr::End] => ended(alloc, Instr::Const64(*word)),
        [Instr::GlobalGet(global), Instr::End] => {
            ended(alloc, Instr::GlobalGet(global_in(numbers, side, *global)))
        }
        _ => Ok(List::new(alloc)),
    }
}

/// An offset, by so many more.
pub fn offset_by(alloc: Global, more: u32, offset: &[Instr]) -> Result<List<Instr>, AllocError>
    ensures { IfOk result (λ list. map instr_of (list_items list) ≡ made.offset_made more (map instr_of offset.now)) }
{
    match offset {
        [Instr::Const32(word), Instr::End] => {
            ended(alloc, Instr::Const32(sum_of(*word as usize, more)))
        }
        _ => Ok(List::new(alloc)),
    }
}

/// An offset as it is.
pub fn offset_kept(alloc: Global, offset: &[Instr]) -> Result<List<Instr>, AllocError>
    ensures { IfOk result (λ list. map instr_of (list_items list) ≡ made.offset_kept (map instr_of offset.now)) }
{
    match offset {
        [Instr::Const32(word), Instr::End] => ended(alloc, Instr::Const32(*word)),
        _ => Ok(List::new(alloc)),
    }
}

// The expression of one instruction.
fn ended(alloc: Global, instr: Instr) -> Result<List<Instr>, AllocError>
    ensures { IfOk result (λ list. map instr_of (list_items list) ≡ instr_of instr ∷ end_mark ∷ []) }
{
    let mut code = Vec::with_capacity(alloc, 2)?;
    code.push(instr)?;
    code.push(Instr::End)?;
    Ok(List::from_vec(code))
}
