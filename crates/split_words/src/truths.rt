//! Operators whose result is a truth value.
ghost use Rattle.std.specs.Prelude.{◌≡◌, [], ◌∷◌, ◌++◌, IfOk};
ghost use Rattle.sem_words.specs.declared.word.Rel.TheVariants as rels;
ghost use Rattle.wasm2js_lang.specs.SplitWords.{ComputesRelation, ComputesZero, Gains};
ghost use Rattle.wasm2js_translation.specs.Names.{spelled};
ghost use Rattle.wasm2js_translation.specs.Words as words;
ghost use Rattle.wasm2js_translation.specs.Words.{simple_statements};
ghost use Rattle.wasm2js_translation.specs.Pairs.{simples};
ghost use Rattle.wasm2js_translation.specs.Wide as wide;
ghost use Rattle.wasm2js_translation.specs.Helpers.{wide_helpers};
ghost use Rattle.wasm2js_nodes.specs.Names.{name_view};
ghost use Rattle.wasm2js_terms.specs.Views.{relation_view};
ghost use Rattle.wasm2js_build.specs.Blocks.{statements_of};
ghost use Rattle.wasm2js_build.specs.Growing.{run, state_of};
ghost use Rattle.split_words.specs.Views.{pair_view, halves_of};

use crate::pair::Pair;
use sem_words::Rel;
use std::alloc::AllocError;
use wasm2js_build::{Block, Straight};
use wasm2js_nodes::Name;
use wasm2js_terms::{BitOp, Relation, Term};

pub fn wide_compare(
    block: &mut Block,
    op: Rel,
    a: Pair,
    b: Pair,
    to: Name,
) -> Result<(), AllocError>
    ensures statements { IfOk result (λ _. statements_of block.new ≡ statements_of block.old ++ simple_statements (wide.wide_compare op (pair_view a) (pair_view b) (name_view to))) }
    ensures computes { IfOk result (λ _. Gains (statements_of block.old) (statements_of block.new) (λ ss. ComputesRelation wide_helpers ss op (halves_of a) (halves_of b) (spelled (name_view to)))) }
{
    relation_at_once(block, op, a, b, to)
}

/// Whether both words are 0.
pub fn wide_zero(block: &mut Block, a: Pair, to: Name) -> Result<(), AllocError>
    ensures statements { IfOk result (λ _. statements_of block.new ≡ statements_of block.old ++ simple_statements (words.put (name_view to) (wide.is_wide_zero (pair_view a)) ∷ [])) }
    ensures computes { IfOk result (λ _. Gains (statements_of block.old) (statements_of block.new) (λ ss. ComputesZero wide_helpers ss (halves_of a) (spelled (name_view to)))) }
{
    zero_test_at_once(block, a, to)
}

#[tactic(auto, using(crate::proofs::AtOnce::run_at_once))]
fn relation_at_once(
    block: &mut Block,
    op: Rel,
    a: Pair,
    b: Pair,
    to: Name,
) -> Result<(), AllocError>
    ensures { IfOk result (λ _. statements_of block.new ≡ statements_of block.old ++ simple_statements (wide.wide_compare op (pair_view a) (pair_view b) (name_view to))) }
{
    let mut straight = Straight::at_once(block);
    put_relation(&mut straight, op, a, b, to)?;
    *block = straight.into_block();
    Ok(())
}

#[tactic(auto, using(crate::proofs::AtOnce::run_at_once))]
fn zero_test_at_once(block: &mut Block, a: Pair, to: Name) -> Result<(), AllocError>
    ensures { IfOk result (λ _. statements_of block.new ≡ statements_of block.old ++ simple_statements (words.put (name_view to) (wide.is_wide_zero (pair_view a)) ∷ [])) }
{
    let mut straight = Straight::at_once(block);
    put_zero_test(&mut straight, a, to)?;
    *block = straight.into_block();
    Ok(())
}

/// Where words may wait.
pub fn put_relation(
    straight: &mut Straight,
    op: Rel,
    a: Pair,
    b: Pair,
    to: Name,
) -> Result<(), AllocError>
    ensures { IfOk result (λ _. state_of straight.new ≡ run (state_of straight.old) (simples (wide.wide_compare op (pair_view a) (pair_view b) (name_view to)))) }
{
    match op {
        Rel::Eq => put_equal(straight, a, b, to),
        Rel::Ne => put_unequal(straight, a, b, to),
        Rel::LtS => put_order(straight, true, Relation::Less, a, b, to),
        Rel::LtU => put_order(straight, false, Relation::Less, a, b, to),
        Rel::GtS => put_order(straight, true, Relation::Greater, a, b, to),
        Rel::GtU => put_order(straight, false, Relation::Greater, a, b, to),
        Rel::LeS => put_order(straight, true, Relation::AtMost, a, b, to),
        Rel::LeU => put_order(straight, false, Relation::AtMost, a, b, to),
        Rel::GeS => put_order(straight, true, Relation::AtLeast, a, b, to),
        Rel::GeU => put_order(straight, false, Relation::AtLeast, a, b, to),
    }
}

/// Where words may wait.
pub fn put_zero_test(straight: &mut Straight, a: Pair, to: Name) -> Result<(), AllocError>
    ensures { IfOk result (λ _. state_of straight.new ≡ run (state_of straight.old) (simples (words.put (name_view to) (wide.is_wide_zero (pair_view a)) ∷ []))) }
{
    let (low, high) = (Term::read(a.low), Term::read(a.high));
    let low_is_zero = Term::compare_number(true, Relation::Equal, &low, 0);
    let high_is_zero = Term::compare_number(true, Relation::Equal, &high, 0);
    straight.put(to, &Term::both(BitOp::And, &low_is_zero, &high_is_zero))
}

fn put_equal(straight: &mut Straight, a: Pair, b: Pair, to: Name) -> Result<(), AllocError>
    ensures { IfOk result (λ _. state_of straight.new ≡ run (state_of straight.old) (simples (words.put (name_view to) (wide.are_equal (pair_view a) (pair_view b)) ∷ []))) }
{
    let low = Term::compare_read(true, Relation::Equal, a.low, b.low);
    let high = Term::compare_read(true, Relation::Equal, a.high, b.high);
    straight.put(to, &Term::both(BitOp::And, &low, &high))
}

fn put_unequal(straight: &mut Straight, a: Pair, b: Pair, to: Name) -> Result<(), AllocError>
    ensures { IfOk result (λ _. state_of straight.new ≡ run (state_of straight.old) (simples (wide.wide_compare rels.Ne (pair_view a) (pair_view b) (name_view to)))) }
{
    let low = Term::compare_read(true, Relation::Equal, a.low, b.low);
    let high = Term::compare_read(true, Relation::Equal, a.high, b.high);
    let equal = Term::both(BitOp::And, &low, &high);
    straight.put(to, &Term::compare_number(true, Relation::Equal, &equal, 0))
}

// The high words decide where they differ.
fn put_order(
    straight: &mut Straight,
    signed: bool,
    relation: Relation,
    a: Pair,
    b: Pair,
    to: Name,
) -> Result<(), AllocError>
    ensures { IfOk result (λ _. state_of straight.new ≡ run (state_of straight.old) (simples (words.put (name_view to) (wide.in_order signed (relation_view relation) (pair_view a) (pair_view b)) ∷ []))) }
{
    let alike = Term::compare_read(true, Relation::Equal, a.high, b.high);
    let by_low = Term::compare_read(false, relation, a.low, b.low);
    let by_high = Term::compare_read(signed, relation, a.high, b.high);
    straight.put(to, &Term::choose(&alike, &by_low, &by_high))
}
