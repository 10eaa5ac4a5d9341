// The rows that a pair meets, from top to bottom, in each row the first module before the second.

ghost use Rattle.std.specs.Prelude.{◌≡◌, None};
ghost use Rattle.wasm_link_lang.specs.Pairs.{past_first};
ghost use Rattle.wasm_link_lang.specs.Refusal as plain;
ghost use Rattle.wasm_link_rows.specs.Stages as stages;

use crate::limits::sums_past;
use crate::memory::{least_maximum, pages, past_maximum, stray_memory};
use crate::profile::profile_row;
use wasm_link_bind::{Bindings, Cycles};
use wasm_link_lang::{LinkRow, Refused};
use wasm_validate::Valid;

/// A row where it has a value, else another.
pub fn refused_by(
    row: LinkRow,
    second: bool,
    value: Option<usize>,
    other: Option<Refused>,
) -> Option<Refused>
    ensures { result ≡ plain.refused_by row second value other }
{
    match value {
        None => other,
        Some(value) => Some(Refused {
            row,
            second,
            value: value as u64,
        }),
    }
}

/// The rows that need no names.
pub fn memory_rows(first: &Valid<'_>, second: &Valid<'_>) -> Option<Refused>
    ensures { result ≡ stages.memory_rows (record { first = first.now; second = second.now }) None }
{
    let first = first.module();
    let second = second.module();
    let past = past_maximum(pages(first, second), least_maximum(first, second));
    let names = refused_by(
        LinkRow::MemoryName,
        false,
        wide(stray_memory(first)),
        refused_by(
            LinkRow::MemoryName,
            true,
            wide(stray_memory(second)),
            refused_by(LinkRow::MemoryLimits, false, wide(past), None),
        ),
    );
    refused_by(
        LinkRow::Profile,
        false,
        profile_row(first),
        refused_by(LinkRow::Profile, true, profile_row(second), names),
    )
}

// The same number.
fn wide(value: Option<u32>) -> Option<usize>
    ensures { result ≡ value }
{
    match value {
        None => None,
        Some(value) => Some(value as usize),
    }
}

/// The rows on names and types.
pub fn name_rows(bindings: &Bindings<'_>) -> Option<Refused>
    ensures { result ≡ stages.name_rows bindings.now None }
{
    refused_by(
        LinkRow::ExportTaken,
        true,
        bindings.taken(),
        refused_by(
            LinkRow::OtherType,
            false,
            bindings.first_other_type(),
            refused_by(LinkRow::OtherType, true, bindings.second_other_type(), None),
        ),
    )
}

/// The rows on imports that come back to themselves, and on sums.
pub fn sum_rows(bindings: &Bindings<'_>, cycles: Cycles) -> Option<Refused>
    requires first { cycles.first ≡ plain.cycle bindings.now 0 0 bindings.now.first.imports }
    requires second { cycles.second ≡ plain.cycle bindings.now 0 (past_first bindings.now).functions bindings.now.second.imports }
    ensures { result ≡ stages.sum_rows bindings.now None }
{
    let past = sums_past(bindings.first(), bindings.second());
    refused_by(
        LinkRow::Cycle,
        false,
        cycles.first,
        refused_by(
            LinkRow::Cycle,
            true,
            cycles.second,
            refused_by(LinkRow::Limit, false, past, None),
        ),
    )
}
