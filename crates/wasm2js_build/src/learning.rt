//! What is known of variables after a step, and which tests are needless by it.
ghost use Rattle.std.specs.Prelude.{◌≡◌, ◌||◌, ℕ, Some, IfOk, option_map};
ghost use Rattle.wasm2js_translation.specs.Delays as delays;
ghost use Rattle.wasm2js_translation.specs.Known as plain;
ghost use Rattle.wasm2js_translation.specs.Names as plain_names;
ghost use Rattle.wasm2js_translation.specs.Words as words;
ghost use Rattle.wasm2js_nodes.specs.Names.{name_view};
ghost use Rattle.wasm2js_terms.specs.Atoms.{atom_view};
ghost use Rattle.wasm2js_terms.specs.Waits.{delays_view, late_term};
ghost use Rattle.wasm2js_terms.specs.Facts.{fact_view, knowns_view};
ghost use Rattle.wasm2js_build.specs.Steps.{step_view, steps_view, learned_bound};

use crate::steps::{Step, changes, one_changes};
use std::alloc::AllocError;
use wasm2js_nodes::Name;
use wasm2js_terms::{
    Atom, Delayed, Fact, Known, Term, atom_of, fact_of, is_within, lesser, note, term_fact,
};

/// Whether a step is a test that cannot fail.
pub(crate) fn is_needless(known: &[Known], waits: &[Delayed], step: &Step<'_>) -> bool
    ensures { result ≡ plain.is_needless (knowns_view known.now) (delays.in_place (delays_view waits.now) (step_view step.now)) }
{
    match step {
        Step::Guard(value, most, _) => is_within(term_fact(known, waits, value).most, *most),
        _ => false,
    }
}

/// Whether a test is never met.
pub(crate) fn is_never(known: &[Known], waits: &[Delayed], test: &Term<'_>) -> bool
    ensures { result ≡ plain.is_within (plain.bound (knowns_view known.now) (late_term waits.now test.now)) 0 }
{
    is_within(term_fact(known, waits, test).most, 0)
}

/// What is known after a step.
pub(crate) fn learn(
    known: &mut Vec<Known>,
    waits: &[Delayed],
    step: &Step<'_>,
) -> Result<(), AllocError>
    ensures { IfOk result (λ _. knowns_view known.new.items ≡ plain.learned (knowns_view known.old.items) (delays.in_place (delays_view waits.now) (step_view step.now))) }
{
    match step {
        Step::Put(to, value) => learn_word(known, waits, *to, value),
        Step::Guard(value, most, _) => learn_bound(known, waits, value, *most),
        _ => {
            forget_changed(known, step);
            Ok(())
        }
    }
}

/// What is known of a word is known of the variable into which it is put.
pub(crate) fn learn_word(
    known: &mut Vec<Known>,
    waits: &[Delayed],
    to: Name,
    value: &Term<'_>,
) -> Result<(), AllocError>
    ensures { IfOk result (λ _. knowns_view known.new.items ≡ plain.noted (name_view to) (plain.term_fact (knowns_view known.old.items) (late_term waits.now value.now)) (plain.unchanged (plain_names.same_name (name_view to)) (knowns_view known.old.items))) }
{
    let fact = term_fact(known, waits, value);
    note(known, to, fact)
}

// The word of a variable is at most so much, behind a test of that.
fn learn_bound(
    known: &mut Vec<Known>,
    waits: &[Delayed],
    value: &Term<'_>,
    most: u64,
) -> Result<(), AllocError>
    ensures { (kind : ℕ) → IfOk result (λ _. knowns_view known.new.items ≡ plain.learned (knowns_view known.old.items) (words.guard (late_term waits.now value.now) most kind)) }
{
    let word = atom_of(waits, value);
    learn_most(known, word, most)
}

fn learn_most(known: &mut Vec<Known>, word: Option<Atom>, most: u64) -> Result<(), AllocError>
    ensures { IfOk result (λ _. knowns_view known.new.items ≡ learned_bound (knowns_view known.old.items) (option_map atom_view word) most) }
{
    match word {
        Some(Atom::Read(name)) => {
            let fact = bounded(fact_of(known, name), most);
            note(known, name, fact)
        }
        _ => Ok(()),
    }
}

fn bounded(fact: Fact, most: u64) -> Fact
    ensures { fact_view result ≡ record { most = plain.lesser fact.most (Some most); by_four = fact.by_four } }
{
    Fact {
        most: lesser(fact.most, Some(most)),
        by_four: fact.by_four,
    }
}

// Of what a step changes nothing is known.
fn forget_changed(known: &mut Vec<Known>, step: &Step<'_>)
    ensures { knowns_view known.new.items ≡ plain.unchanged (delays.changes (step_view step.now)) (knowns_view known.old.items) }
{
    known.retain(|entry| !changes(step, entry.name));
}

/// What is known after the first steps or the second ones: of variables that none of them changes.
pub(crate) fn unlearn(known: &mut Vec<Known>, first: &[Step<'_>], second: &[Step<'_>])
    ensures { knowns_view known.new.items ≡ plain.unchanged (λ n. delays.one_changes (steps_view first.now) n || delays.one_changes (steps_view second.now) n) (knowns_view known.old.items) }
{
    known.retain(|entry| !(one_changes(first, entry.name) || one_changes(second, entry.name)));
}
