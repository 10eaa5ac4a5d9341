// Numbers of functions and globals in the linked module.

ghost use Rattle.std.specs.Prelude.{◌≡◌, ◌+◌, ◌<◌, ◌≤◌, ◌^◌, ◌++◌, length, map, slice_get, IfOk, OnOk};
ghost use Rattle.wasm_link_code.specs.Numbers as plain;
ghost use Rattle.wasm_link_code.specs.Numbers.{places, counted, or_zero};

use std::alloc::{AllocError, Global};

/// The numbers of two modules' functions, or of their globals: of imports that aren't bound, the first's first, and then of so many own ones of each.
/// A bound import has 0.
pub fn numbered(
    alloc: Global,
    first: &[Option<usize>],
    own: usize,
    second: &[Option<usize>],
    more: usize,
) -> Result<Vec<u32>, AllocError>
    requires { length first.now + own + length second.now + more < 2 ^ 32 }
    ensures { IfOk result (λ numbers. numbers.items ≡ plain.numbered first.now own second.now more) }
{
    let unbound = unbound_count(first);
    let imports = unbound + unbound_count(second);
    let mut numbers = Vec::new(alloc);
    push_places(&mut numbers, 0, first)?;
    push_counted(&mut numbers, imports, own)?;
    push_places(&mut numbers, unbound, second)?;
    push_counted(&mut numbers, imports + own, more)?;
    Ok(numbers)
}

/// How many imports aren't bound.
pub fn unbound_count(bound: &[Option<usize>]) -> usize
    ensures count { result ≡ plain.unbound_count bound.now }
    ensures few { result ≤ length bound.now }
{
    let mut count = 0;
    for import in bound {
        if import.is_none() {
            count += 1;
        }
    }
    count
}

// .. of imports, from this number on.
fn push_places(
    numbers: &mut Vec<u32>,
    from: usize,
    bound: &[Option<usize>],
) -> Result<(), AllocError>
    requires { from + length bound.now < 2 ^ 32 }
    ensures { OnOk result (numbers.new.items ≡ numbers.old.items ++ places from bound.now) }
{
    let mut number = from;
    for import in bound {
        match import {
            None => {
                numbers.push(number as u32)?;
                number += 1;
            }
            Some(_) => numbers.push(0)?,
        }
    }
    Ok(())
}

// So many numbers, from this one on.
#[tactic(auto, using(crate::proofs::Counting::counted_more))]
fn push_counted(numbers: &mut Vec<u32>, from: usize, count: usize) -> Result<(), AllocError>
    requires { from + count < 2 ^ 32 }
    ensures { OnOk result (numbers.new.items ≡ numbers.old.items ++ counted from count) }
{
    for i in 0..count {
        numbers.push((from + i) as u32)?;
    }
    Ok(())
}

/// The number at each of these places, 0 past the last.
pub fn numbers_at(alloc: Global, numbers: &[u32], places: &[usize]) -> Result<Vec<u32>, AllocError>
    ensures { IfOk result (λ all. all.items ≡ map (λ p. or_zero (slice_get numbers.now p)) places.now) }
{
    places.iter().map(|p| number_at(numbers, *p)).collect(alloc)
}

/// The number at a place, 0 past the last.
pub fn number_at(numbers: &[u32], place: usize) -> u32
    ensures { result ≡ or_zero (slice_get numbers.now place) }
{
    match numbers.get(place) {
        Some(number) => *number,
        None => 0,
    }
}
