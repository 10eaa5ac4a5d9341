// Whether two modules can be linked.

ghost use Rattle.std.specs.Prelude.{◌≡◌, None, IfOk, MatchResult};
ghost use Rattle.wasm_link_lang.specs.Refusal as plain;
ghost use Rattle.wasm_link_rows.specs.Faults.{IsLinkFault};
ghost use Rattle.wasm_link_rows.specs.Stages as stages;

use crate::crowded::crowded;
use crate::fault::LinkFault;
use crate::rows::{memory_rows, name_rows, refused_by, sum_rows};
use std::alloc::{AllocError, Global};
use wasm_link_bind::{Bindings, Numbers};
use wasm_link_lang::{LinkRow, Refused};
use wasm_validate::Valid;

/// Two modules that can be linked, with the numbers of their functions and globals, or the first row that they meet.
pub fn check<'a>(
    alloc: Global,
    first: &'a Valid<'a>,
    second: &'a Valid<'a>,
) -> Result<Numbers<'a>, LinkFault>
    ensures exactly { MatchResult result (λ numbers. (plain.refusal (record { first = first.now; second = second.now }) ≡ None) × (numbers ≡ record { first = first.now; second = second.now })) (IsLinkFault (record { first = first.now; second = second.now })) }
{
    if let Some(refused) = memory_rows(first, second) {
        return Err(LinkFault::Refused(refused));
    }
    let bindings = Bindings::new(alloc, first, second)?;
    after_memory(alloc, bindings)
}

// .. that meet no row on their memory.
fn after_memory<'a>(alloc: Global, bindings: Bindings<'a>) -> Result<Numbers<'a>, LinkFault>
    requires { stages.memory_rows bindings None ≡ None }
    ensures { MatchResult result (λ numbers. (plain.refusal bindings.entry ≡ None) × (numbers ≡ bindings.entry)) (IsLinkFault bindings.entry) }
{
    if let Some(refused) = name_rows(&bindings) {
        return Err(LinkFault::Refused(refused));
    }
    after_names(alloc, bindings)
}

// .. and none on names.
fn after_names<'a>(alloc: Global, bindings: Bindings<'a>) -> Result<Numbers<'a>, LinkFault>
    requires memory { stages.memory_rows bindings None ≡ None }
    requires names { stages.name_rows bindings None ≡ None }
    ensures { MatchResult result (λ numbers. (plain.refusal bindings.entry ≡ None) × (numbers ≡ bindings.entry)) (IsLinkFault bindings.entry) }
{
    let cycles = bindings.cycles(alloc)?;
    if let Some(refused) = sum_rows(&bindings, cycles) {
        return Err(LinkFault::Refused(refused));
    }
    after_sums(alloc, bindings)
}

// .. and none on sums.
#[tactic(auto, using(crate::proofs::Chained::refused_last, crate::proofs::Chained::no_sums))]
fn after_sums<'a>(alloc: Global, bindings: Bindings<'a>) -> Result<Numbers<'a>, LinkFault>
    requires memory { stages.memory_rows bindings None ≡ None }
    requires names { stages.name_rows bindings None ≡ None }
    requires sums { stages.sum_rows bindings None ≡ None }
    ensures { MatchResult result (λ numbers. (plain.refusal bindings.entry ≡ None) × (numbers ≡ bindings.entry)) (IsLinkFault bindings.entry) }
{
    let crowded = crowded_rows(alloc, &bindings)?;
    if let Some(refused) = crowded {
        return Err(LinkFault::Refused(refused));
    }
    let numbers = Numbers::new(alloc, bindings)?;
    Ok(numbers)
}

// The rows on bodies.
fn crowded_rows(alloc: Global, bindings: &Bindings<'_>) -> Result<Option<Refused>, AllocError>
    ensures { IfOk result (λ refused. refused ≡ stages.crowded_rows bindings.now None) }
{
    let first = crowded(alloc, bindings.first().valid().module())?;
    let second = crowded(alloc, bindings.second().valid().module())?;
    Ok(refused_by(
        LinkRow::Limit,
        false,
        first,
        refused_by(LinkRow::Limit, true, second, None),
    ))
}
