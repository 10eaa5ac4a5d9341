//! Words that wait in place of the variables of operands.
ghost use Rattle.std.specs.Prelude.{◌≡◌, ◌++◌, ◌∷◌, ◌&&◌, [], Option, Some, None, false, length, nat_lt, option_map, if◌then◌else◌, IfOk};
ghost use Rattle.wasm2js_translation.specs.Delays as delays;
ghost use Rattle.wasm2js_translation.specs.Words as words;
ghost use Rattle.wasm2js_nodes.specs.Names.{name_view};
ghost use Rattle.wasm2js_terms.specs.Atoms.{atom_view};
ghost use Rattle.wasm2js_terms.specs.Views.{term_view};
ghost use Rattle.wasm2js_terms.specs.Waits.{delayed_view, delays_view, late_term, if_atom};

use crate::atoms::{Atom, Delayed};
use crate::terms::Term;
use std::alloc::AllocError;
use wasm2js_nodes::{Name, Numbered, same_name};

/// So many light words wait at most.
const MOST_WAITING: usize = 16;

/// Whether a variable is of an operand.
pub fn is_operand(name: Name) -> bool
    ensures { result ≡ delays.is_operand (name_view name) }
{
    match name {
        Name::Counted(Numbered::OperandLow | Numbered::OperandHigh, _) => true,
        _ => false,
    }
}

/// The word that waits in place of a variable.
pub(crate) fn waiting_atom(waits: &[Delayed], name: Name) -> Option<Atom>
    ensures { option_map atom_view result ≡ delays.waiting (delays_view waits.now) (name_view name) }
{
    for delayed in waits {
        if same_name(delayed.name, name) {
            return Some(delayed.word);
        }
    }
    None
}

/// The word that stands for a variable.
pub fn at_hand(waits: &[Delayed], name: Name) -> Atom
    ensures { atom_view result ≡ delays.at_hand (delays_view waits.now) (name_view name) }
{
    match waiting_atom(waits, name) {
        Some(word) => word,
        None => Atom::Read(name),
    }
}

/// The number that waits in place of a variable.
pub fn number_at(waits: &[Delayed], name: Name) -> Option<i64>
    ensures { result ≡ delays.number_at (delays_view waits.now) (name_view name) }
{
    match at_hand(waits, name) {
        Atom::Number(value) => Some(value),
        Atom::Read(_) => None,
    }
}

// A word that may wait.
fn is_light(word: Atom) -> bool
    ensures { result ≡ delays.is_light (atom_view word) }
{
    match word {
        Atom::Number(_) => true,
        Atom::Read(name) => !is_operand(name),
    }
}

/// The word of a term that is a variable or a number.
#[tactic(auto, using(crate::proofs::Views::terms))]
pub fn atom_of(waits: &[Delayed], term: &Term<'_>) -> Option<Atom>
    ensures { option_map atom_view result ≡ if_atom (late_term waits.now term.now) (term_view term.now) }
{
    match term {
        Term::Read(name) => Some(at_hand(waits, *name)),
        Term::Number(value) => Some(Atom::Number(*value)),
        Term::Both(_, _, _)
        | Term::BothNumber(_, _, _)
        | Term::BothRead(_, _, _)
        | Term::Flip(_)
        | Term::SumOfTwo(_, _, _)
        | Term::SumOfThree(_, _, _, _, _)
        | Term::SumNumber(_, _, _)
        | Term::SumRead(_, _, _)
        | Term::SumOfFour(_, _, _, _)
        | Term::Product(_, _)
        | Term::Zeros(_)
        | Term::Compare(_, _, _, _)
        | Term::CompareNumber(_, _, _, _)
        | Term::CompareRead(_, _, _, _)
        | Term::Choose(_, _, _)
        | Term::Byte(_, _)
        | Term::Whole(_) => None,
    }
}

/// What waits in place of a variable of an operand that is to have this word, if that is light and so may wait.
pub(crate) fn light_word(waits: &[Delayed], name: Name, term: &Term<'_>) -> Option<Delayed>
    ensures { option_map delayed_view result ≡ (if delays.is_light (late_term waits.now term.now) && nat_lt (length (delays_view waits.now)) delays.most_waiting then Some (record { name = name_view name; word = late_term waits.now term.now }) else None) }
{
    if !has_room(waits) {
        return None;
    }
    match atom_of(waits, term) {
        Some(word) if is_light(word) => Some(Delayed { name, word }),
        _ => None,
    }
}

/// Whether one more light word may wait.
pub fn has_room(waits: &[Delayed]) -> bool
    ensures { result ≡ nat_lt (length (delays_view waits.now)) delays.most_waiting }
{
    waits.len() < MOST_WAITING
}

/// What waited in place of a variable is dropped.
pub fn drop_name(waits: &mut Vec<Delayed>, name: Name)
    ensures { delays_view waits.new.items ≡ delays.without (name_view name) (delays_view waits.old.items) }
{
    waits.retain(|delayed| !same_name(delayed.name, name));
}

/// A light word begins to wait in place of a variable.
pub fn wait(waits: &mut Vec<Delayed>, delayed: Delayed) -> Result<(), AllocError>
    ensures { IfOk result (λ _. delays_view waits.new.items ≡ delays.without (name_view delayed.name) (delays_view waits.old.items) ++ delayed_view delayed ∷ []) }
{
    drop_name(waits, delayed.name);
    push_waiting(waits, delayed)
}

fn push_waiting(waits: &mut Vec<Delayed>, delayed: Delayed) -> Result<(), AllocError>
    ensures { IfOk result (λ _. delays_view waits.new.items ≡ delays_view waits.old.items ++ delayed_view delayed ∷ []) }
{
    match waits.push(delayed) {
        Ok(()) => Ok(()),
        Err(_) => Err(AllocError),
    }
}

/// A variable of no operand stands for one of an operand from now on.
pub fn stand_in(waits: &mut Vec<Delayed>, name: Name, other: Name) -> Result<(), AllocError>
    requires { delays.is_operand (name_view other) ≡ false }
    ensures { IfOk result (λ _. delays_view waits.new.items ≡ delays_view waits.old.items ++ record { name = name_view name; word = words.read (name_view other) } ∷ []) }
{
    let word = Atom::Read(other);
    push_waiting(waits, Delayed { name, word })
}
