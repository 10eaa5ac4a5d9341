//! The numbers that are used of a space.

ghost use Rattle.std.specs.Prelude.{◌≡◌, ◌++◌, [], false, IfOk, OnOk};
ghost use Rattle.wat_lang.specs.declared.parts.Space.TheVariants as spaces;
ghost use Rattle.wat_lang.specs.Modules as spec;
ghost use Rattle.wat_lang.specs.Names.{uses_in};
ghost use Rattle.wat_lang.specs.Rows.{number_rows, is_bad_number};
ghost use Rattle.wat_marks.specs.Views.{marked_of};
ghost use Rattle.wat_read_tokens.specs.Marks.{marks_of, only};
ghost use Rattle.wat_read_bodies.specs.Naturals.{number_named};

use std::alloc::{AllocError, Global};
use wat_lang::Space;
use wat_marks::MarkedToken;
use wat_read_labels::Labels;
use wat_read_names::Ids;
use wat_read_tokens::{Wanted, first};

/// The first number that is used of a space with these ids, or 0.
#[tactic(auto, using(wat_read_tokens::proofs::Tests::use_reads, crate::proofs::Good::use_fits))]
pub fn first_used(ids: &Ids<'_>, space: Space, parts: &[MarkedToken<'_>]) -> u32
    requires { number_rows (marks_of parts.now) ≡ [] }
    ensures { result ≡ spec.first_used (λ _. ids.now) space (marks_of parts.now) }
{
    match first(parts, Wanted::Uses(space)) {
        Some(token) => ids.number(token),
        None => 0,
    }
}

#[tactic(auto, using(wat_read_tokens::proofs::Tests::use_reads, crate::proofs::Good::use_fits))]
fn push_used(
    numbers: &mut Vec<u32>,
    ids: &Ids<'_>,
    space: Space,
    token: &MarkedToken<'_>,
) -> Result<(), AllocError>
    requires { is_bad_number (marked_of token.now) ≡ false }
    ensures { OnOk result (numbers.new.items ≡ numbers.old.items ++ only (uses_in space (marked_of token.now).mark) (number_named ids.now (marked_of token.now))) }
{
    if !Wanted::Uses(space).is(token.mark) {
        return Ok(());
    }
    numbers.push(ids.number(token))?;
    Ok(())
}

/// The numbers that are used of a space with these ids.
pub fn used(
    alloc: Global,
    ids: &Ids<'_>,
    space: Space,
    parts: &[MarkedToken<'_>],
) -> Result<Vec<u32>, AllocError>
    requires { number_rows (marks_of parts.now) ≡ [] }
    ensures { IfOk result (λ v. v.items ≡ spec.used (λ _. ids.now) space (marks_of parts.now)) }
{
    let mut numbers = Vec::new(alloc);
    for token in parts {
        push_used(&mut numbers, ids, space, token)?;
    }
    Ok(numbers)
}

/// The first label that is used, or 0.
#[tactic(auto, using(wat_read_tokens::proofs::Tests::use_reads, crate::proofs::Good::use_fits))]
pub fn first_label(labels: &Labels<'_>, parts: &[MarkedToken<'_>]) -> u32
    requires { number_rows (marks_of parts.now) ≡ [] }
    ensures { result ≡ spec.first_used (λ _. labels.now) spaces.Label (marks_of parts.now) }
{
    match first(parts, Wanted::Uses(Space::Label)) {
        Some(token) => labels.number(token),
        None => 0,
    }
}

#[tactic(auto, using(wat_read_tokens::proofs::Tests::use_reads, crate::proofs::Good::use_fits))]
fn push_label(
    numbers: &mut Vec<u32>,
    labels: &Labels<'_>,
    token: &MarkedToken<'_>,
) -> Result<(), AllocError>
    requires { is_bad_number (marked_of token.now) ≡ false }
    ensures { OnOk result (numbers.new.items ≡ numbers.old.items ++ only (uses_in spaces.Label (marked_of token.now).mark) (number_named labels.now (marked_of token.now))) }
{
    if !Wanted::Uses(Space::Label).is(token.mark) {
        return Ok(());
    }
    numbers.push(labels.number(token))?;
    Ok(())
}

/// The labels that are used.
pub fn labels_used(
    alloc: Global,
    labels: &Labels<'_>,
    parts: &[MarkedToken<'_>],
) -> Result<Vec<u32>, AllocError>
    requires { number_rows (marks_of parts.now) ≡ [] }
    ensures { IfOk result (λ v. v.items ≡ spec.used (λ _. labels.now) spaces.Label (marks_of parts.now)) }
{
    let mut numbers = Vec::new(alloc);
    for token in parts {
        push_label(&mut numbers, labels, token)?;
    }
    Ok(numbers)
}
