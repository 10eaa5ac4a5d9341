// The values of the cases of a switch.

ghost use Rattle.std.specs.Prelude.{◌≡◌, ◌^◌, ◌-◌, ◌≤ℤ◌, ◌<ℤ◌, ℤ, pos, negsuc, true, List, [], IfOk};
ghost use Rattle.asm_tree.specs.Views.{clauses_view};
ghost use Rattle.asm_lang_valid.specs.Typing as typing;
ghost use Rattle.asm_validate_labels.specs.Cases.{value_before, least, greatest, Knows};

use asm_tree::Clause;
use indexmap::IndexSet;
use key_hashes::{KeyHashes, Seed};
use std::alloc::{AllocError, Global};

fn value_fits(value: Option<i64>) -> bool
    ensures { result ≡ typing.in_range (value_before value []) }
{
    match value {
        None => true,
        Some(value) => -(1 << 31) <= value && value < 1 << 31,
    }
}

fn are_in_range(clauses: &[Clause]) -> bool
    ensures { result ≡ typing.in_range (typing.values (clauses_view clauses.now)) }
{
    for clause in clauses {
        if !value_fits(clause.value) {
            return false;
        }
    }
    true
}

fn lesser(value: Option<i64>, low: i64) -> i64
    ensures { (vs : List ℤ) → low ≡ least vs → result ≡ least (value_before value vs) }
{
    match value {
        None => low,
        Some(value) => value.min(low),
    }
}

fn greater(value: Option<i64>, high: i64) -> i64
    ensures { (vs : List ℤ) → high ≡ greatest vs → result ≡ greatest (value_before value vs) }
{
    match value {
        None => high,
        Some(value) => value.max(high),
    }
}

fn least_value(clauses: &[Clause]) -> i64
    requires { typing.in_range (typing.values (clauses_view clauses.now)) ≡ true }
    ensures low { negsuc (2 ^ 31 - 1) ≤ℤ result }
    ensures high { result ≤ℤ pos (2 ^ 31) }
    ensures value { result ≡ least (typing.values (clauses_view clauses.now)) }
{
    let mut low = 1 << 31;
    let mut i = clauses.len();
    while i > 0 {
        i -= 1;
        low = lesser(clauses[i].value, low);
    }
    low
}

fn greatest_value(clauses: &[Clause]) -> i64
    requires { typing.in_range (typing.values (clauses_view clauses.now)) ≡ true }
    ensures low { negsuc (2 ^ 31) ≤ℤ result }
    ensures high { result <ℤ pos (2 ^ 31) }
    ensures value { result ≡ greatest (typing.values (clauses_view clauses.now)) }
{
    let mut high = -(1 << 31) - 1;
    let mut i = clauses.len();
    while i > 0 {
        i -= 1;
        high = greater(clauses[i].value, high);
    }
    high
}

fn are_close(clauses: &[Clause]) -> bool
    requires { typing.in_range (typing.values (clauses_view clauses.now)) ≡ true }
    ensures { result ≡ typing.close_together (typing.values (clauses_view clauses.now)) }
{
    greatest_value(clauses) - least_value(clauses) < 1 << 31
}

/// Adds the value of a case, and says whether it is new.
fn add(seen: &mut IndexSet<i64, KeyHashes>, value: Option<i64>) -> Result<bool, AllocError>
    ensures is_new { IfOk result (λ b. (vs : List ℤ) → Knows seen.old vs → typing.distinct vs ≡ true → b ≡ typing.distinct (value_before value vs)) }
    ensures added { IfOk result (λ b. (vs : List ℤ) → Knows seen.old vs → b ≡ true → Knows seen.new (value_before value vs)) }
{
    match value {
        None => Ok(true),
        Some(value) => Ok(seen.insert(value)?),
    }
}

// Hashers for the values of cases.
fn hashes_of(clauses: &[Clause]) -> KeyHashes {
    let mut seed = Seed::new();
    for clause in clauses {
        if let Some(value) = clause.value {
            seed.add(&value.to_le_bytes());
        }
    }
    seed.hashes()
}

fn are_distinct(alloc: Global, clauses: &[Clause]) -> Result<bool, AllocError>
    ensures { IfOk result (λ b. b ≡ typing.distinct (typing.values (clauses_view clauses.now))) }
{
    let mut seen = IndexSet::with_hasher(alloc, hashes_of(clauses));
    let mut i = clauses.len();
    while i > 0 {
        i -= 1;
        if !add(&mut seen, clauses[i].value)? {
            return Ok(false);
        }
    }
    Ok(true)
}

/// Whether the values of the cases are distinct, in range and close together.
pub fn cases_fit(alloc: Global, clauses: &[Clause]) -> Result<bool, AllocError>
    ensures { IfOk result (λ b. b ≡ typing.cases_fit (clauses_view clauses.now)) }
{
    if !are_in_range(clauses) {
        return Ok(false);
    }
    if !are_close(clauses) {
        return Ok(false);
    }
    are_distinct(alloc, clauses)
}
