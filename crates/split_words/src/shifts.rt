//! Shifts and rotations by a number of places that is known, of which there are less than 64, in place of a call of a helper.
ghost use Rattle.std.specs.Prelude.{◌≡◌, ◌<◌, ◌≤◌, [], ◌∷◌, IfOk};
ghost use Rattle.wasm2js_translation.specs.Words as words;
ghost use Rattle.wasm2js_translation.specs.Pairs.{simples};
ghost use Rattle.wasm2js_translation.specs.Wide as wide;
ghost use Rattle.wasm2js_nodes.specs.Names.{name_view};
ghost use Rattle.wasm2js_terms.specs.Views.{bit_view};
ghost use Rattle.wasm2js_build.specs.Growing.{run, state_of};
ghost use Rattle.split_words.specs.Views.{pair_view};

use crate::pair::Pair;
use crate::results::{put_moved, put_sign};
use std::alloc::AllocError;
use wasm_lang::ValType;
use wasm2js_build::Straight;
use wasm2js_nodes::Name;
use wasm2js_terms::{BitOp, Term};

/// To the left.
pub(crate) fn put_left(
    straight: &mut Straight,
    places: u32,
    a: Pair,
    to: Pair,
) -> Result<(), AllocError>
    ensures { IfOk result (λ _. state_of straight.new ≡ run (state_of straight.old) (simples (wide.left_by places (pair_view a) (pair_view to)))) }
{
    if places == 0 {
        put_moved(straight, ValType::I64, a, to)
    } else if places < 32 {
        put_joined(straight, to.high, places, a.high, a.low)?;
        put_shifted(straight, to.low, BitOp::Shl, places, a.low)
    } else {
        put_shifted(straight, to.high, BitOp::Shl, places - 32, a.low)?;
        straight.put(to.low, &Term::number(0))
    }
}

/// To the right, where what comes in at the left is the sign or nothing.
pub(crate) fn put_right(
    straight: &mut Straight,
    signed: bool,
    places: u32,
    a: Pair,
    to: Pair,
) -> Result<(), AllocError>
    ensures { IfOk result (λ _. state_of straight.new ≡ run (state_of straight.old) (simples (wide.right_by signed places (pair_view a) (pair_view to)))) }
{
    if places == 0 {
        put_moved(straight, ValType::I64, a, to)
    } else if places < 32 {
        put_joined(straight, to.low, 32 - places, a.high, a.low)?;
        put_shifted(straight, to.high, to_right(signed), places, a.high)
    } else {
        put_shifted(straight, to.low, to_right(signed), places - 32, a.high)?;
        put_emptied(straight, to.high, signed, a.high)
    }
}

/// Round to the left. The spare variable holds the low word meanwhile.
pub(crate) fn put_round(
    straight: &mut Straight,
    places: u32,
    a: Pair,
    spare: Name,
    to: Pair,
) -> Result<(), AllocError>
    requires { places < 64 }
    ensures { IfOk result (λ _. state_of straight.new ≡ run (state_of straight.old) (simples (wide.round_by places (pair_view a) (name_view spare) (pair_view to)))) }
{
    if places == 0 {
        put_moved(straight, ValType::I64, a, to)
    } else {
        straight.put(spare, &Term::read(a.low))?;
        put_turned(straight, places, spare, a.high, to)
    }
}

// Of a low word in the spare variable and this high word.
fn put_turned(
    straight: &mut Straight,
    places: u32,
    spare: Name,
    high: Name,
    to: Pair,
) -> Result<(), AllocError>
    requires { places < 64 }
    ensures { IfOk result (λ _. state_of straight.new ≡ run (state_of straight.old) (simples (wide.turned_from places (name_view spare) (name_view high) (pair_view to)))) }
{
    if places == 32 {
        straight.put(to.low, &Term::read(high))?;
        straight.put(to.high, &Term::read(spare))
    } else if places < 32 {
        put_joined(straight, to.low, places, spare, high)?;
        put_joined(straight, to.high, places, high, spare)
    } else {
        put_joined(straight, to.low, places - 32, high, spare)?;
        put_joined(straight, to.high, places - 32, spare, high)
    }
}

// A word by so many places to the left, which are 1 to 31, and what comes in there from another one.
fn put_joined(
    straight: &mut Straight,
    to: Name,
    places: u32,
    upper: Name,
    lower: Name,
) -> Result<(), AllocError>
    requires { places ≤ 32 }
    ensures { IfOk result (λ _. state_of straight.new ≡ run (state_of straight.old) (simples (words.put (name_view to) (wide.joined_left places (name_view upper) (name_view lower)) ∷ []))) }
{
    let upper = Term::read(upper);
    let lower = Term::read(lower);
    let left = Term::both_number(BitOp::Shl, &upper, places as i64);
    let right = Term::both_number(BitOp::Shr, &lower, (32 - places) as i64);
    straight.put(to, &Term::both(BitOp::Or, &left, &right))
}

// A shift by no place is the word itself.
fn put_shifted(
    straight: &mut Straight,
    to: Name,
    op: BitOp,
    places: u32,
    from: Name,
) -> Result<(), AllocError>
    ensures { IfOk result (λ _. state_of straight.new ≡ run (state_of straight.old) (simples (words.put (name_view to) (wide.shifted (bit_view op) places (name_view from)) ∷ []))) }
{
    let word = Term::read(from);
    if places == 0 {
        straight.put(to, &word)
    } else {
        straight.put(to, &Term::both_number(op, &word, places as i64))
    }
}

// The high word of which no bit is left but the sign.
fn put_emptied(
    straight: &mut Straight,
    to: Name,
    signed: bool,
    from: Name,
) -> Result<(), AllocError>
    ensures { IfOk result (λ _. state_of straight.new ≡ run (state_of straight.old) (simples (words.put (name_view to) (wide.emptied signed (name_view from)) ∷ []))) }
{
    if signed {
        put_sign(straight, from, to)
    } else {
        straight.put(to, &Term::number(0))
    }
}

fn to_right(signed: bool) -> BitOp
    ensures { bit_view result ≡ wide.to_right signed }
{
    if signed { BitOp::Sar } else { BitOp::Shr }
}
