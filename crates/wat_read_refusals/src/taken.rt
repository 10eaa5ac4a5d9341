//! Ids that are bound again in a space.

ghost use Rattle.std.specs.Prelude.{◌≡◌, ◌++◌, ◌||◌, ℕ, List, IfOk, OnOk, bytes_eq, flat_map};
ghost use Rattle.wat_lang.specs.Rows as spec;
ghost use Rattle.wat_lang.specs.Names.{all_with};
ghost use Rattle.wat_lang.specs.Grammar.{Marked};
ghost use Rattle.wat_grammar.specs.Views.{mark_of};
ghost use Rattle.wat_read_tokens.specs.Marks.{marks_of, only};
ghost use Rattle.wat_marks.specs.Views.{marked_of};
ghost use Rattle.wat_read_refusals.specs.Joined.{join};
ghost use Rattle.wat_read_refusals.specs.Seen.{has_seen, HasSeen};
ghost use Rattle.wat_read_refusals.specs.Single.{before_next, binds_in_module, module_spaces, taken_row};

use crate::least::Least;
use indexmap::IndexSet;
use key_hashes::{KeyHashes, NameKey};
use std::alloc::{AllocError, Global};
use wat_grammar::Mark;
use wat_lang::{Row, Space};
use wat_marks::MarkedToken;
use wat_read_tokens::{Wanted, atom, same_space};

/// Adds an id, and says whether it was there.
fn is_again<'a>(
    seen: &mut IndexSet<NameKey<'a>, KeyHashes>,
    id: &'a [u8],
) -> Result<bool, AllocError>
    ensures again { IfOk result (λ b. b ≡ has_seen seen.old id.now) }
    ensures added { OnOk result ((n : List ℕ) → has_seen seen.new n ≡ (bytes_eq n id.now || has_seen seen.old n)) }
{
    let is_new = seen.insert(NameKey::of(id))?;
    Ok(!is_new)
}

#[tactic(auto, using(wat_read_tokens::proofs::Tests::binding_reads, crate::proofs::Seens::seen_same, crate::proofs::Seens::seen_more, crate::proofs::Seens::noted_none, crate::proofs::Seens::noted_again))]
/// Notes an id that is bound again in the space.
fn note_taken<'a>(
    least: &mut Least,
    seen: &mut IndexSet<NameKey<'a>, KeyHashes>,
    space: Space,
    token: &MarkedToken<'a>,
) -> Result<(), AllocError>
    ensures seen { OnOk result ((before : List (List ℕ)) → HasSeen seen.old before → HasSeen seen.new (before_next space before (marked_of token.now))) }
    ensures noted { OnOk result ((before : List (List ℕ)) → HasSeen seen.old before → least.new ≡ join least.old (spec.least (taken_row space before (marked_of token.now)))) }
{
    if !Wanted::Binds(space).is(token.mark) {
        return Ok(());
    }
    let again = is_again(seen, atom(token))?;
    least.note(again, Row::IdTaken, token.token.at);
    Ok(())
}

fn binds_in_module(mark: Mark) -> bool
    ensures { result ≡ binds_in_module (mark_of mark) }
{
    match mark {
        Mark::Binds(space) => !same_space(Space::Local, space) && !same_space(Space::Label, space),
        _ => false,
    }
}

/// Appends a token that binds an id in a space of the module, so that the others are passed over once.
pub fn push_binding<'a>(
    found: &mut Vec<MarkedToken<'a>>,
    token: &MarkedToken<'a>,
) -> Result<(), AllocError>
    ensures { OnOk result (marks_of found.new.items ≡ marks_of found.old.items ++ only (binds_in_module (marked_of token.now).mark) (marked_of token.now)) }
{
    if !binds_in_module(token.mark) {
        return Ok(());
    }
    found.push(*token)?;
    Ok(())
}

/// Notes the ids that are bound again in the space.
pub fn taken_in<'a>(
    alloc: Global,
    hashes: KeyHashes,
    least: &mut Least,
    space: Space,
    marks: &[MarkedToken<'a>],
) -> Result<(), AllocError>
    ensures { OnOk result (least.new ≡ join least.old (spec.least (spec.taken_in space (marks_of marks.now)))) }
{
    let mut seen = IndexSet::with_hasher(alloc, hashes);
    for token in marks {
        note_taken(least, &mut seen, space, token)?;
    }
    Ok(())
}

/// Notes the ids that are bound again in the spaces of the module, of whose marks these are the ones that bind ids there.
pub fn module_taken(
    alloc: Global,
    hashes: KeyHashes,
    least: &mut Least,
    bindings: &[MarkedToken<'_>],
) -> Result<(), AllocError>
    ensures { (ms : List Marked) → marks_of bindings.now ≡ all_with binds_in_module ms → OnOk result (least.new ≡ join least.old (spec.least (flat_map (λ s. spec.taken_in s ms) module_spaces))) }
{
    taken_in(alloc, hashes, least, Space::Type, bindings)?;
    taken_in(alloc, hashes, least, Space::Func, bindings)?;
    taken_in(alloc, hashes, least, Space::Table, bindings)?;
    taken_in(alloc, hashes, least, Space::Memory, bindings)?;
    taken_in(alloc, hashes, least, Space::Global, bindings)?;
    taken_in(alloc, hashes, least, Space::Elem, bindings)?;
    taken_in(alloc, hashes, least, Space::Data, bindings)?;
    Ok(())
}
