//! What is known of words: of variables, and of terms by that.
ghost use Rattle.std.specs.Prelude.{◌≡◌, ◌<◌, ◌++◌, [], ◌∷◌, ℕ, false, Some, option_map, nat_lt, length, drop, if◌then◌else◌, IfOk};
ghost use Rattle.sem_words.specs.Words.{word_of};
ghost use Rattle.wasm2js_translation.specs.Known as plain;
ghost use Rattle.wasm2js_translation.specs.Names as names;
ghost use Rattle.wasm2js_translation.specs.Words as words;
ghost use Rattle.wasm2js_translation.specs.Words.{no_more, further};
ghost use Rattle.wasm2js_nodes.specs.Names.{name_view};
ghost use Rattle.wasm2js_terms.specs.Views.{bit_view, term_view};
ghost use Rattle.wasm2js_terms.specs.Atoms.{atom_view};
ghost use Rattle.wasm2js_terms.specs.Waits.{late_term};
ghost use Rattle.wasm2js_terms.specs.Facts.{fact_view, knowns_view, number_fact, truth_fact, are_disjoint, conjunction_fact, shifted_fact, bits_fact, added_fact, product_fact, choice_fact};

use crate::atoms::{Atom, Delayed};
use crate::terms::{BitOp, Term};
use crate::waits::{at_hand, atom_of, is_operand};
use std::alloc::AllocError;
use wasm2js_nodes::{Name, same_name};

/// What is known of a word.
#[derive(Clone, Copy)]
pub struct Fact {
    /// A bound, which is below 2^32 unless a test gave it.
    pub most: Option<u64>,
    /// It is a multiple of four.
    pub by_four: bool,
}

/// What is known of the word of a variable.
#[derive(Clone, Copy)]
pub struct Known {
    pub name: Name,
    pub fact: Fact,
}

/// Of so many variables something is known at most.
const MOST_KNOWN: usize = 16;

fn nothing() -> Fact
    ensures { fact_view result ≡ plain.nothing_known }
{
    Fact {
        most: None,
        by_four: false,
    }
}

/// What is known of the word of a variable.
pub fn fact_of(known: &[Known], name: Name) -> Fact
    ensures { fact_view result ≡ plain.fact_of (knowns_view known.now) (name_view name) }
{
    for entry in known {
        if same_name(entry.name, name) {
            return entry.fact;
        }
    }
    nothing()
}

// ---- bounds

// A bound of a word of 32 bits.
fn capped(most: u64) -> Option<u64>
    ensures { result ≡ plain.capped most }
{
    if most < 1 << 32 { Some(most) } else { None }
}

/// The lesser of two bounds of one word.
pub fn lesser(a: Option<u64>, b: Option<u64>) -> Option<u64>
    ensures { result ≡ plain.lesser a b }
{
    match (a, b) {
        (Some(a), Some(b)) => Some(if a <= b { a } else { b }),
        (None, b) => b,
        (a, None) => a,
    }
}

fn greater_of(a: Option<u64>, b: Option<u64>) -> Option<u64>
    ensures { result ≡ plain.greater_of a b }
{
    match (a, b) {
        (Some(a), Some(b)) => Some(if a <= b { b } else { a }),
        _ => None,
    }
}

fn added_bounds(a: Option<u64>, b: Option<u64>) -> Option<u64>
    ensures { result ≡ plain.added_bounds a b }
{
    match (a, b) {
        (Some(a), Some(b)) => capped(a.checked_add(b)?),
        _ => None,
    }
}

fn product_bound(a: Option<u64>, b: Option<u64>) -> Option<u64>
    ensures { result ≡ plain.product_bound a b }
{
    match (a, b) {
        (Some(a), Some(b)) => capped(a.checked_mul(b)?),
        _ => None,
    }
}

fn shifted_bound(a: Option<u64>, count: u32) -> Option<u64>
    requires { count < 32 }
    ensures { result ≡ plain.shifted_bound a count }
{
    match a {
        Some(a) => capped(a.checked_mul(1 << count)?),
        None => None,
    }
}

/// Whether a word that has this bound is at most so much.
pub fn is_within(bound: Option<u64>, most: u64) -> bool
    ensures { result ≡ plain.is_within bound most }
{
    match bound {
        Some(bound) => bound <= most,
        None => false,
    }
}

// ---- terms

/// The word of a literal.
pub fn word_of_literal(value: i64) -> u32
    ensures { result ≡ word_of 32 value }
{
    value.rem_euclid(1 << 32) as u32
}

fn number_fact(value: i64) -> Fact
    ensures { fact_view result ≡ number_fact value }
{
    let word = word_of_literal(value);
    Fact {
        most: Some(word as u64),
        by_four: word % 4 == 0,
    }
}

/// What is known of the word of a variable or a literal.
pub fn atom_fact(known: &[Known], atom: Atom) -> Fact
    ensures { fact_view result ≡ plain.term_fact (knowns_view known.now) (atom_view atom) }
{
    match atom {
        Atom::Read(name) => fact_of(known, name),
        Atom::Number(value) => number_fact(value),
    }
}

// A multiple of four has no bit of a number below four.
fn are_disjoint(a: Fact, b: Fact) -> bool
    ensures { result ≡ are_disjoint (fact_view a) (fact_view b) }
{
    a.by_four && is_within(b.most, 3)
}

fn conjunction(a: Fact, b: Fact) -> Fact
    ensures { fact_view result ≡ conjunction_fact (fact_view a) (fact_view b) }
{
    Fact {
        most: if are_disjoint(a, b) || are_disjoint(b, a) {
            Some(0)
        } else {
            lesser(a.most, b.most)
        },
        by_four: a.by_four || b.by_four,
    }
}

// By so many places to the left, where that is a number.
fn shifted(a: Fact, count: Option<Atom>) -> Fact
    ensures { fact_view result ≡ shifted_fact (fact_view a) (option_map atom_view count) }
{
    match count {
        Some(Atom::Number(value)) => {
            let count = word_of_literal(value) % 32;
            Fact {
                most: shifted_bound(a.most, count),
                by_four: a.by_four || count >= 2,
            }
        }
        _ => nothing(),
    }
}

// Of an operator on two words, the second of which is this one if it has no operators.
fn bits(operator: BitOp, a: Fact, b: Fact, second: Option<Atom>) -> Fact
    ensures { fact_view result ≡ bits_fact (bit_view operator) (fact_view a) (fact_view b) (option_map atom_view second) }
{
    match operator {
        BitOp::And => conjunction(a, b),
        BitOp::Or | BitOp::Xor => Fact {
            most: None,
            by_four: a.by_four && b.by_four,
        },
        BitOp::Shl => shifted(a, second),
        BitOp::Sar | BitOp::Shr => nothing(),
    }
}

// Of a word of which this is known and a literal.
fn bits_with(operator: BitOp, a: Fact, value: i64) -> Fact
    ensures { fact_view result ≡ bits_fact (bit_view operator) (fact_view a) (number_fact value) (Some (words.number value)) }
{
    let number = number_fact(value);
    bits(operator, a, number, Some(Atom::Number(value)))
}

fn both_read(known: &[Known], operator: BitOp, a: Atom, b: Atom) -> Fact
    ensures { fact_view result ≡ plain.term_fact (knowns_view known.now) (words.both (bit_view operator) (atom_view a) (atom_view b)) }
{
    let first = atom_fact(known, a);
    let second = atom_fact(known, b);
    bits(operator, first, second, Some(b))
}

fn added(a: Fact, minus: bool, b: Fact) -> Fact
    ensures { fact_view result ≡ added_fact (fact_view a) minus (fact_view b) }
{
    Fact {
        most: if minus {
            None
        } else {
            added_bounds(a.most, b.most)
        },
        by_four: a.by_four && b.by_four,
    }
}

fn multiplied(a: Fact, b: Fact) -> Fact
    ensures { fact_view result ≡ product_fact (fact_view a) (fact_view b) }
{
    Fact {
        most: product_bound(a.most, b.most),
        by_four: a.by_four || b.by_four,
    }
}

fn one_of(a: Fact, b: Fact) -> Fact
    ensures { fact_view result ≡ choice_fact (fact_view a) (fact_view b) }
{
    Fact {
        most: greater_of(a.most, b.most),
        by_four: a.by_four && b.by_four,
    }
}

fn truth() -> Fact
    ensures { fact_view result ≡ truth_fact }
{
    Fact {
        most: Some(1),
        by_four: false,
    }
}

/// What is known of the word of a term, where these words wait.
#[cycle(facts)]
#[tactic(auto, using(crate::proofs::Views::terms))]
pub fn term_fact(known: &[Known], waits: &[Delayed], term: &Term<'_>) -> Fact
    ensures { fact_view result ≡ plain.term_fact (knowns_view known.now) (late_term waits.now term.now) }
{
    match term {
        Term::Read(name) => atom_fact(known, at_hand(waits, *name)),
        Term::Number(value) => number_fact(*value),
        Term::Both(operator, a, b) => both(known, waits, *operator, a, b),
        Term::BothNumber(operator, a, value) => with_number(known, waits, *operator, a, *value),
        Term::BothRead(operator, a, b) => {
            both_read(known, *operator, at_hand(waits, *a), at_hand(waits, *b))
        }
        Term::SumOfTwo(a, minus, b) => two(known, waits, a, *minus, b),
        Term::SumOfThree(a, first, b, second, c) => three(known, waits, a, *first, b, *second, c),
        Term::SumNumber(a, minus, value) => {
            let a = term_fact(known, waits, a);
            added(a, *minus, number_fact(*value))
        }
        Term::SumRead(a, minus, b) => {
            let a = atom_fact(known, at_hand(waits, *a));
            let b = atom_fact(known, at_hand(waits, *b));
            added(a, *minus, b)
        }
        Term::SumOfFour(a, b, c, d) => four(known, waits, a, b, c, d),
        Term::Product(a, b) => product(known, waits, a, b),
        Term::Choose(_, a, b) => choice(known, waits, a, b),
        Term::Compare(_, _, _, _)
        | Term::CompareNumber(_, _, _, _)
        | Term::CompareRead(_, _, _, _) => truth(),
        Term::Flip(_) | Term::Zeros(_) | Term::Byte(_, _) | Term::Whole(_) => nothing(),
    }
}

#[cycle(facts)]
#[inline(never)]
fn both(known: &[Known], waits: &[Delayed], operator: BitOp, a: &Term<'_>, b: &Term<'_>) -> Fact
    ensures { fact_view result ≡ plain.term_fact (knowns_view known.now) (words.both (bit_view operator) (late_term waits.now a.now) (late_term waits.now b.now)) }
{
    let second = atom_of(waits, b);
    let a = term_fact(known, waits, a);
    let b = term_fact(known, waits, b);
    bits(operator, a, b, second)
}

#[cycle(facts)]
#[inline(never)]
fn with_number(
    known: &[Known],
    waits: &[Delayed],
    operator: BitOp,
    a: &Term<'_>,
    value: i64,
) -> Fact
    ensures { fact_view result ≡ plain.term_fact (knowns_view known.now) (words.both (bit_view operator) (late_term waits.now a.now) (words.number value)) }
{
    let a = term_fact(known, waits, a);
    bits_with(operator, a, value)
}

#[cycle(facts)]
#[inline(never)]
fn two(known: &[Known], waits: &[Delayed], a: &Term<'_>, minus: bool, b: &Term<'_>) -> Fact
    ensures { fact_view result ≡ plain.term_fact (knowns_view known.now) (words.sum (late_term waits.now a.now) (further minus (late_term waits.now b.now) no_more)) }
{
    let a = term_fact(known, waits, a);
    let b = term_fact(known, waits, b);
    added(a, minus, b)
}

#[cycle(facts)]
#[inline(never)]
fn three(
    known: &[Known],
    waits: &[Delayed],
    a: &Term<'_>,
    first: bool,
    b: &Term<'_>,
    second: bool,
    c: &Term<'_>,
) -> Fact
    ensures { fact_view result ≡ plain.term_fact (knowns_view known.now) (words.sum (late_term waits.now a.now) (further first (late_term waits.now b.now) (further second (late_term waits.now c.now) no_more))) }
{
    let a = term_fact(known, waits, a);
    let b = term_fact(known, waits, b);
    let c = term_fact(known, waits, c);
    let part = added(a, first, b);
    added(part, second, c)
}

#[cycle(facts)]
#[inline(never)]
fn four(
    known: &[Known],
    waits: &[Delayed],
    a: &Term<'_>,
    b: &Term<'_>,
    c: &Term<'_>,
    d: &Term<'_>,
) -> Fact
    ensures { fact_view result ≡ plain.term_fact (knowns_view known.now) (words.sum (late_term waits.now a.now) (further false (late_term waits.now b.now) (further false (late_term waits.now c.now) (further false (late_term waits.now d.now) no_more)))) }
{
    let a = term_fact(known, waits, a);
    let b = term_fact(known, waits, b);
    let c = term_fact(known, waits, c);
    let d = term_fact(known, waits, d);
    let part = added(a, false, b);
    let most = added(part, false, c);
    added(most, false, d)
}

#[cycle(facts)]
#[inline(never)]
fn product(known: &[Known], waits: &[Delayed], a: &Term<'_>, b: &Term<'_>) -> Fact
    ensures { fact_view result ≡ plain.term_fact (knowns_view known.now) (words.product (late_term waits.now a.now) (late_term waits.now b.now)) }
{
    let a = term_fact(known, waits, a);
    let b = term_fact(known, waits, b);
    multiplied(a, b)
}

#[cycle(facts)]
#[inline(never)]
fn choice(known: &[Known], waits: &[Delayed], a: &Term<'_>, b: &Term<'_>) -> Fact
    ensures { (t : words.Term) → fact_view result ≡ plain.term_fact (knowns_view known.now) (words.choose t (late_term waits.now a.now) (late_term waits.now b.now)) }
{
    let a = term_fact(known, waits, a);
    let b = term_fact(known, waits, b);
    one_of(a, b)
}

// ---- variables

// Of a variable nothing is known any longer.
fn forget(known: &mut Vec<Known>, name: Name)
    ensures { knowns_view known.new.items ≡ plain.unchanged (names.same_name (name_view name)) (knowns_view known.old.items) }
{
    known.retain(|entry| !same_name(name, entry.name));
}

/// What is known where a block begins: of variables that are no operands'.
pub fn keep_into_block(known: &mut Vec<Known>)
    ensures { knowns_view known.new.items ≡ plain.into_block (knowns_view known.old.items) }
{
    known.retain(|entry| !is_operand(entry.name));
}

// Whether something is known.
fn says_something(fact: Fact) -> bool
    ensures { result ≡ plain.says_something (fact_view fact) }
{
    fact.most.is_some() || fact.by_four
}

// The oldest makes room for one more.
fn make_room(known: &mut Vec<Known>)
    ensures { knowns_view known.new.items ≡ (if nat_lt (length (knowns_view known.old.items)) plain.most_known then knowns_view known.old.items else drop 1 (knowns_view known.old.items)) }
{
    if known.len() >= MOST_KNOWN {
        known.remove(0);
    }
}

// One more.
fn push(known: &mut Vec<Known>, name: Name, fact: Fact) -> Result<(), AllocError>
    ensures { IfOk result (λ _. knowns_view known.new.items ≡ knowns_view known.old.items ++ record { name = name_view name; fact = fact_view fact } ∷ []) }
{
    match known.push(Known { name, fact }) {
        Ok(()) => Ok(()),
        Err(_) => Err(AllocError),
    }
}

/// This alone is known of a variable.
pub fn note(known: &mut Vec<Known>, name: Name, fact: Fact) -> Result<(), AllocError>
    ensures { IfOk result (λ _. knowns_view known.new.items ≡ plain.noted (name_view name) (fact_view fact) (plain.unchanged (names.same_name (name_view name)) (knowns_view known.old.items))) }
{
    forget(known, name);
    if says_something(fact) {
        make_room(known);
        push(known, name, fact)
    } else {
        Ok(())
    }
}
