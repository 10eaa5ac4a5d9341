// Where chains of bound imports end.

ghost use Rattle.std.specs.Prelude.{◌≡◌, ℕ, length, map, IfOk};
ghost use Rattle.wasm_link_bind.specs.Chains.{step, at, Ends};

use std::alloc::{AllocError, Global};

/// What each function leads to after so many steps at least, of which each goes from a bound import to what it is bound to, and no other function
/// goes further.
pub fn ends_of(
    alloc: Global,
    next: &[Option<usize>],
    steps: usize,
) -> Result<Vec<usize>, AllocError>
    ensures { IfOk result (λ ends. Ends next.now steps ends.items) }
{
    let mut ends = stepped(alloc, next)?;
    let mut rest = steps;
    while rest > 0 {
        ends = doubled(alloc, ends.as_slice())?;
        rest /= 2;
    }
    Ok(ends)
}

// One step of each function.
fn stepped(alloc: Global, next: &[Option<usize>]) -> Result<Vec<usize>, AllocError>
    ensures count { IfOk result (λ table. length table.items ≡ length next.now) }
    ensures steps { IfOk result (λ table. (a : ℕ) → at table.items a ≡ step next.now a) }
{
    let mut table = Vec::with_capacity(alloc, next.len())?;
    for (a, bound) in next.iter().enumerate() {
        table.push(bound.unwrap_or(a))?;
    }
    Ok(table)
}

// Twice the steps.
fn doubled(alloc: Global, table: &[usize]) -> Result<Vec<usize>, AllocError>
    ensures { IfOk result (λ twice. twice.items ≡ map (at table.now) table.now) }
{
    table.iter().map(|a| place_in(table, *a)).collect(alloc)
}

/// What a table has at a place: the place itself past its end.
#[tactic(auto, unfolding(crate::specs::Chains::at))]
pub fn place_in(table: &[usize], place: usize) -> usize
    ensures { result ≡ at table.now place }
{
    match table.get(place) {
        Some(to) => *to,
        None => place,
    }
}
