//! Words of two others, which wait until the next step.
ghost use Rattle.std.specs.Prelude.{◌≡◌, Some, None, option_map, if◌then◌else◌};
ghost use Rattle.wasm2js_translation.specs.Delays as delays;
ghost use Rattle.wasm2js_translation.specs.Words as words;
ghost use Rattle.wasm2js_translation.specs.Words.{no_more, further};
ghost use Rattle.wasm2js_nodes.specs.Names.{name_view};
ghost use Rattle.wasm2js_terms.specs.Atoms.{atom_view};
ghost use Rattle.wasm2js_terms.specs.Views.{bit_view, relation_view};
ghost use Rattle.wasm2js_terms.specs.Waits.{delays_view, late_term};
ghost use Rattle.wasm2js_terms.specs.Held.{of_two_view, all_held, with_held, newest_view, only_of_two, of_both, word_view};

use crate::atoms::{Atom, Delayed};
use crate::terms::{BitOp, Relation, Term};
use crate::waits::{atom_of, is_operand, light_word, waiting_atom};
use wasm2js_nodes::{Name, same_name};

/// One operator on two words without operators.
#[derive(Clone, Copy)]
pub enum OfTwo {
    Bits(BitOp, Atom, Atom),
    /// A sum, or with a mark a difference.
    Sum(Atom, bool, Atom),
    Product(Atom, Atom),
    /// Of signed numbers, or not.
    Compare(bool, Relation, Atom, Atom),
}

/// A variable of an operand, and the word of two others that it is to have.
#[derive(Clone, Copy)]
pub struct Held {
    pub name: Name,
    pub word: OfTwo,
}

/// A word that stands for a variable.
#[derive(Clone, Copy)]
pub enum Word {
    Atom(Atom),
    OfTwo(OfTwo),
}

/// What begins to wait.
#[derive(Clone, Copy)]
pub enum Newest {
    Light(Delayed),
    OfTwo(Held),
}

fn bits_of_two(operator: BitOp, a: Option<Atom>, b: Option<Atom>) -> Option<OfTwo>
    ensures { option_map of_two_view result ≡ of_both (λ x y. words.both (bit_view operator) x y) (option_map atom_view a) (option_map atom_view b) }
{
    Some(OfTwo::Bits(operator, a?, b?))
}

fn sum_of_two(a: Option<Atom>, minus: bool, b: Option<Atom>) -> Option<OfTwo>
    ensures { option_map of_two_view result ≡ of_both (λ x y. words.sum x (further minus y no_more)) (option_map atom_view a) (option_map atom_view b) }
{
    Some(OfTwo::Sum(a?, minus, b?))
}

fn product_of_two(a: Option<Atom>, b: Option<Atom>) -> Option<OfTwo>
    ensures { option_map of_two_view result ≡ of_both (λ x y. words.product x y) (option_map atom_view a) (option_map atom_view b) }
{
    Some(OfTwo::Product(a?, b?))
}

fn compare_of_two(
    is_signed: bool,
    relation: Relation,
    a: Option<Atom>,
    b: Option<Atom>,
) -> Option<OfTwo>
    ensures { option_map of_two_view result ≡ of_both (λ x y. words.compare is_signed (relation_view relation) x y) (option_map atom_view a) (option_map atom_view b) }
{
    Some(OfTwo::Compare(is_signed, relation, a?, b?))
}

fn bits(waits: &[Delayed], operator: BitOp, a: &Term<'_>, b: &Term<'_>) -> Option<OfTwo>
    ensures { option_map of_two_view result ≡ only_of_two (words.both (bit_view operator) (late_term waits.now a.now) (late_term waits.now b.now)) }
{
    let first = atom_of(waits, a);
    let second = atom_of(waits, b);
    bits_of_two(operator, first, second)
}

fn sum(waits: &[Delayed], a: &Term<'_>, minus: bool, b: &Term<'_>) -> Option<OfTwo>
    ensures { option_map of_two_view result ≡ only_of_two (words.sum (late_term waits.now a.now) (further minus (late_term waits.now b.now) no_more)) }
{
    let first = atom_of(waits, a);
    let second = atom_of(waits, b);
    sum_of_two(first, minus, second)
}

fn product(waits: &[Delayed], a: &Term<'_>, b: &Term<'_>) -> Option<OfTwo>
    ensures { option_map of_two_view result ≡ only_of_two (words.product (late_term waits.now a.now) (late_term waits.now b.now)) }
{
    let first = atom_of(waits, a);
    let second = atom_of(waits, b);
    product_of_two(first, second)
}

fn compare(
    waits: &[Delayed],
    is_signed: bool,
    relation: Relation,
    a: &Term<'_>,
    b: &Term<'_>,
) -> Option<OfTwo>
    ensures { option_map of_two_view result ≡ only_of_two (words.compare is_signed (relation_view relation) (late_term waits.now a.now) (late_term waits.now b.now)) }
{
    let first = atom_of(waits, a);
    let second = atom_of(waits, b);
    compare_of_two(is_signed, relation, first, second)
}

// The word of a term that is one of two others.
#[tactic(auto, using(crate::proofs::Views::terms))]
fn of_two(waits: &[Delayed], term: &Term<'_>) -> Option<OfTwo>
    ensures { option_map of_two_view result ≡ only_of_two (late_term waits.now term.now) }
{
    match term {
        Term::Both(operator, a, b) => bits(waits, *operator, a, b),
        Term::BothNumber(operator, a, value) => bits(waits, *operator, a, &Term::Number(*value)),
        Term::BothRead(operator, a, b) => {
            bits(waits, *operator, &Term::Read(*a), &Term::Read(*b))
        }
        Term::SumOfTwo(a, minus, b) => sum(waits, a, *minus, b),
        Term::SumNumber(a, minus, value) => sum(waits, a, *minus, &Term::Number(*value)),
        Term::SumRead(a, minus, b) => sum(waits, &Term::Read(*a), *minus, &Term::Read(*b)),
        Term::Product(a, b) => product(waits, a, b),
        Term::Compare(is_signed, relation, a, b) => compare(waits, *is_signed, *relation, a, b),
        Term::CompareNumber(is_signed, relation, a, value) => {
            compare(waits, *is_signed, *relation, a, &Term::Number(*value))
        }
        Term::CompareRead(is_signed, relation, a, b) => {
            compare(
                waits,
                *is_signed,
                *relation,
                &Term::Read(*a),
                &Term::Read(*b),
            )
        }
        // What waits in place of a variable has no operator.
        Term::Read(_) => None,
        Term::Number(_)
        | Term::Flip(_)
        | Term::SumOfThree(_, _, _, _, _)
        | Term::SumOfFour(_, _, _, _)
        | Term::Zeros(_)
        | Term::Choose(_, _, _)
        | Term::Byte(_, _)
        | Term::Whole(_) => None,
    }
}

/// What waits in place of a variable that is to have this word, if that may wait.
pub fn waiting_word(waits: &[Delayed], name: Name, term: &Term<'_>) -> Option<Newest>
    ensures { option_map newest_view result ≡ (if delays.may_wait (delays_view waits.now) (name_view name) (late_term waits.now term.now) then Some (record { name = name_view name; word = late_term waits.now term.now }) else None) }
{
    if !is_operand(name) {
        return None;
    }
    match of_two(waits, term) {
        Some(word) => Some(Newest::OfTwo(Held { name, word })),
        None => match light_word(waits, name, term) {
            Some(delayed) => Some(Newest::Light(delayed)),
            None => None,
        },
    }
}

/// The word that stands for a variable, where a word is held behind the light ones.
pub fn word_at(waits: &[Delayed], held: Option<Held>, name: Name) -> Word
    ensures { word_view result ≡ delays.at_hand (with_held (delays_view waits.now) held) (name_view name) }
{
    match waiting_atom(waits, name) {
        Some(word) => Word::Atom(word),
        None => word_held(held, name),
    }
}

fn word_held(held: Option<Held>, name: Name) -> Word
    ensures { word_view result ≡ delays.at_hand (all_held held) (name_view name) }
{
    match held {
        Some(held) if same_name(held.name, name) => Word::OfTwo(held.word),
        _ => Word::Atom(Atom::Read(name)),
    }
}

/// What is held, unless it is held in place of this variable.
pub fn held_without(held: Option<Held>, name: Name) -> Option<Held>
    ensures { all_held result ≡ delays.without (name_view name) (all_held held) }
{
    match held {
        Some(held) if !same_name(held.name, name) => Some(held),
        _ => None,
    }
}
