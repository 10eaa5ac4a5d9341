//! Operators whose result has 64 bits.
ghost use Rattle.std.specs.Prelude.{◌≡◌, ◌<◌, false, true, [], ◌∷◌, ◌++◌, IfOk};
ghost use Rattle.sem_words.specs.declared.word.Un.TheVariants as uns;
ghost use Rattle.wasm_lang_valid.specs.Measures.{is_mul_div};
ghost use Rattle.wasm2js_lang.specs.SplitWords.{ComputesBinary, ComputesUnary, ComputesExtension, Gains};
ghost use Rattle.wasm2js_translation.specs.Names as names;
ghost use Rattle.wasm2js_translation.specs.Words as words;
ghost use Rattle.wasm2js_translation.specs.Words.{simple_statements};
ghost use Rattle.wasm2js_translation.specs.Pairs as pairs;
ghost use Rattle.wasm2js_translation.specs.Pairs.{simples};
ghost use Rattle.wasm2js_translation.specs.Wide as wide;
ghost use Rattle.wasm2js_translation.specs.Delays as delays;
ghost use Rattle.wasm2js_translation.specs.Helpers.{wide_helpers};
ghost use Rattle.wasm2js_nodes.specs.Names.{name_view, fixed_view};
ghost use Rattle.wasm2js_terms.specs.Views.{bit_view, term_view};
ghost use Rattle.wasm2js_build.specs.Blocks.{statements_of};
ghost use Rattle.wasm2js_build.specs.Growing.{run, state_of};
ghost use Rattle.wasm2js_laws_wide.specs.Laws.{is_extension};
ghost use Rattle.split_words.specs.Views.{pair_view, halves_of};

use crate::pair::Pair;
use crate::shifts::{put_left, put_right, put_round};
use sem_words::{Bin, Un};
use std::alloc::AllocError;
use wasm_lang::ValType;
use wasm2js_build::{Block, Straight};
use wasm2js_nodes::{Fixed, Name};
use wasm2js_terms::{BitOp, Relation, Term, word_of_literal};

/// A value of this type from one place to another.
#[tactic(auto, using(crate::proofs::AtOnce::run_at_once))]
pub fn moved(block: &mut Block, kind: ValType, from: Pair, to: Pair) -> Result<(), AllocError>
    ensures { IfOk result (λ _. statements_of block.new ≡ statements_of block.old ++ simple_statements (pairs.moved kind (pair_view from) (pair_view to))) }
{
    let mut straight = Straight::at_once(block);
    put_moved(&mut straight, kind, from, to)?;
    *block = straight.into_block();
    Ok(())
}

/// A product, a quotient and a remainder aren't made of words of 32 bits here.
pub fn wide_binary(block: &mut Block, op: Bin, a: Pair, b: Pair, to: Pair) -> Result<(), AllocError>
    requires translated { is_mul_div op ≡ false }
    ensures statements { IfOk result (λ _. statements_of block.new ≡ statements_of block.old ++ simple_statements (wide.wide_binary op (pair_view a) (pair_view b) (pair_view to))) }
    ensures computes { IfOk result (λ _. Gains (statements_of block.old) (statements_of block.new) (λ ss. ComputesBinary wide_helpers ss op (halves_of a) (halves_of b) (halves_of to))) }
{
    binary_at_once(block, op, a, b, to)
}

pub fn wide_unary(block: &mut Block, op: Un, a: Pair, to: Pair) -> Result<(), AllocError>
    ensures statements { IfOk result (λ _. statements_of block.new ≡ statements_of block.old ++ simple_statements (wide.wide_unary op (pair_view a) (pair_view to))) }
    ensures computes { IfOk result (λ _. Gains (statements_of block.old) (statements_of block.new) (λ ss. ComputesUnary wide_helpers ss op (halves_of a) (halves_of to))) }
{
    unary_at_once(block, op, a, to)
}

/// The low bits, of which there are 8, 16 or 32, extended with their sign.
pub fn wide_extend(block: &mut Block, bits: u32, a: Pair, to: Pair) -> Result<(), AllocError>
    ensures statements { IfOk result (λ _. statements_of block.new ≡ statements_of block.old ++ simple_statements (wide.wide_extend bits (pair_view a) (pair_view to))) }
    ensures computes { is_extension bits ≡ true → IfOk result (λ _. Gains (statements_of block.old) (statements_of block.new) (λ ss. ComputesExtension wide_helpers ss bits (halves_of a) (halves_of to))) }
{
    extended_at_once(block, bits, a, to)
}

#[tactic(auto, using(crate::proofs::AtOnce::run_at_once))]
fn binary_at_once(block: &mut Block, op: Bin, a: Pair, b: Pair, to: Pair) -> Result<(), AllocError>
    requires made { is_mul_div op ≡ false }
    ensures { IfOk result (λ _. statements_of block.new ≡ statements_of block.old ++ simple_statements (wide.wide_binary op (pair_view a) (pair_view b) (pair_view to))) }
{
    let mut straight = Straight::at_once(block);
    put_asked(&mut straight, op, a, b, to)?;
    *block = straight.into_block();
    Ok(())
}

#[tactic(auto, using(crate::proofs::AtOnce::run_at_once))]
fn unary_at_once(block: &mut Block, op: Un, a: Pair, to: Pair) -> Result<(), AllocError>
    ensures { IfOk result (λ _. statements_of block.new ≡ statements_of block.old ++ simple_statements (wide.wide_unary op (pair_view a) (pair_view to))) }
{
    let mut straight = Straight::at_once(block);
    put_unary(&mut straight, op, a, to)?;
    *block = straight.into_block();
    Ok(())
}

#[tactic(auto, using(crate::proofs::AtOnce::run_at_once))]
fn extended_at_once(block: &mut Block, bits: u32, a: Pair, to: Pair) -> Result<(), AllocError>
    ensures { IfOk result (λ _. statements_of block.new ≡ statements_of block.old ++ simple_statements (wide.wide_extend bits (pair_view a) (pair_view to))) }
{
    let mut straight = Straight::at_once(block);
    put_extension(&mut straight, bits, a, to)?;
    *block = straight.into_block();
    Ok(())
}

/// A value of this type from one place to another.
pub fn put_moved(
    straight: &mut Straight,
    kind: ValType,
    from: Pair,
    to: Pair,
) -> Result<(), AllocError>
    ensures { IfOk result (λ _. state_of straight.new ≡ run (state_of straight.old) (simples (pairs.moved kind (pair_view from) (pair_view to)))) }
{
    straight.put(to.low, &Term::read(from.low))?;
    match kind {
        ValType::I32 => Ok(()),
        ValType::I64 => straight.put(to.high, &Term::read(from.high)),
    }
}

/// Where words may wait: a shift or a rotation by a number that waits calls no helper.
pub fn put_binary(
    straight: &mut Straight,
    op: Bin,
    a: Pair,
    b: Pair,
    to: Pair,
) -> Result<(), AllocError>
    requires { is_mul_div op ≡ false }
    ensures { IfOk result (λ _. state_of straight.new ≡ run (state_of straight.old) (simples (wide.wide_binary_at (delays.number_at (state_of straight.old).waits (pair_view b).low) op (pair_view a) (pair_view b) (pair_view to)))) }
{
    let count = straight.number_of(b.low);
    put_counted(straight, op, count, a, b, to)
}

// Where the low word of the second operand is this number, if it is one.
fn put_counted(
    straight: &mut Straight,
    op: Bin,
    count: Option<i64>,
    a: Pair,
    b: Pair,
    to: Pair,
) -> Result<(), AllocError>
    requires split { is_mul_div op ≡ false }
    ensures { IfOk result (λ _. state_of straight.new ≡ run (state_of straight.old) (simples (wide.wide_binary_at count op (pair_view a) (pair_view b) (pair_view to)))) }
{
    match count {
        Some(number) => put_by(straight, op, word_of_literal(number) % 64, a, b, to),
        None => put_asked(straight, op, a, b, to),
    }
}

// By a number of places that is known.
fn put_by(
    straight: &mut Straight,
    op: Bin,
    places: u32,
    a: Pair,
    b: Pair,
    to: Pair,
) -> Result<(), AllocError>
    requires places { places < 64 }
    requires split { is_mul_div op ≡ false }
    ensures { IfOk result (λ _. state_of straight.new ≡ run (state_of straight.old) (simples (wide.wide_binary_by op places (pair_view a) (pair_view b) (pair_view to)))) }
{
    match op {
        Bin::Shl => put_left(straight, places, a, to),
        Bin::ShrS => put_right(straight, true, places, a, to),
        Bin::ShrU => put_right(straight, false, places, a, to),
        Bin::Rotl => put_round(straight, places, a, b.low, to),
        Bin::Rotr => put_round(straight, (64 - places) % 64, a, b.low, to),
        _ => put_asked(straight, op, a, b, to),
    }
}

// By a count that is known as the code runs alone.
fn put_asked(straight: &mut Straight, op: Bin, a: Pair, b: Pair, to: Pair) -> Result<(), AllocError>
    requires asked { is_mul_div op ≡ false }
    ensures { IfOk result (λ _. state_of straight.new ≡ run (state_of straight.old) (simples (wide.wide_binary op (pair_view a) (pair_view b) (pair_view to)))) }
{
    match op {
        Bin::Add => sum(straight, a, b, to),
        Bin::Sub => difference(straight, a, b, to),
        Bin::Mul | Bin::DivS | Bin::DivU | Bin::RemS | Bin::RemU => unreachable!(),
        Bin::And => bits(straight, BitOp::And, a, b, to),
        Bin::Or => bits(straight, BitOp::Or, a, b, to),
        Bin::Xor => bits(straight, BitOp::Xor, a, b, to),
        Bin::Shl => turn(straight, Fixed::ShiftLeft, a, to, &Term::read(b.low)),
        Bin::ShrS => turn(straight, Fixed::ShiftRightSigned, a, to, &Term::read(b.low)),
        Bin::ShrU => turn(straight, Fixed::ShiftRight, a, to, &Term::read(b.low)),
        Bin::Rotl => turn(straight, Fixed::RotateLeft, a, to, &Term::read(b.low)),
        Bin::Rotr => turn_right(straight, a, b, to),
    }
}

/// Where words may wait.
pub fn put_unary(straight: &mut Straight, op: Un, a: Pair, to: Pair) -> Result<(), AllocError>
    ensures { IfOk result (λ _. state_of straight.new ≡ run (state_of straight.old) (simples (wide.wide_unary op (pair_view a) (pair_view to)))) }
{
    match op {
        Un::Clz => count(straight, Fixed::LeadingZeros, a, to),
        Un::Ctz => count(straight, Fixed::TrailingZeros, a, to),
        Un::Popcnt => set_bits(straight, a, to),
    }
}

/// Where words may wait.
pub fn put_extension(
    straight: &mut Straight,
    bits: u32,
    a: Pair,
    to: Pair,
) -> Result<(), AllocError>
    ensures { IfOk result (λ _. state_of straight.new ≡ run (state_of straight.old) (simples (wide.wide_extend bits (pair_view a) (pair_view to)))) }
{
    if bits == 32 {
        straight.put(to.low, &Term::read(a.low))?;
    } else {
        put_extended(straight, bits, a.low, to.low)?;
    }
    put_sign(straight, to.low, to.high)
}

/// The low bits of a word, extended with their sign.
pub fn put_extended(
    straight: &mut Straight,
    bits: u32,
    from: Name,
    to: Name,
) -> Result<(), AllocError>
    ensures { IfOk result (λ _. state_of straight.new ≡ run (state_of straight.old) (simples (words.put (name_view to) (pairs.extended bits (words.read (name_view from))) ∷ []))) }
{
    let places = 32u32.saturating_sub(bits) as i64;
    let a = Term::read(from);
    let far = Term::both_number(BitOp::Shl, &a, places);
    straight.put(to, &Term::both_number(BitOp::Sar, &far, places))
}

/// The high word of a number of 64 bits that has the value of the low word's signed reading.
pub fn put_sign(straight: &mut Straight, low: Name, high: Name) -> Result<(), AllocError>
    ensures { IfOk result (λ _. state_of straight.new ≡ run (state_of straight.old) (simples (words.put (name_view high) (pairs.sign_of (words.read (name_view low))) ∷ []))) }
{
    let word = Term::read(low);
    straight.put(high, &Term::both_number(BitOp::Sar, &word, 31))
}

// The carry of the low words goes into the high one.
fn sum(straight: &mut Straight, a: Pair, b: Pair, to: Pair) -> Result<(), AllocError>
    ensures { IfOk result (λ _. state_of straight.new ≡ run (state_of straight.old) (simples (wide.wide_sum (pair_view a) (pair_view b) (pair_view to)))) }
{
    straight.put(to.low, &Term::plus_read(a.low, b.low))?;
    let carry = Term::compare_read(false, Relation::Less, to.low, b.low);
    let a_high = Term::read(a.high);
    let b_high = Term::read(b.high);
    straight.put(to.high, &Term::sum_of_three(&a_high, &b_high, &carry))
}

// So does what the low words borrow, while they stand.
fn difference(straight: &mut Straight, a: Pair, b: Pair, to: Pair) -> Result<(), AllocError>
    ensures { IfOk result (λ _. state_of straight.new ≡ run (state_of straight.old) (simples (wide.wide_difference (pair_view a) (pair_view b) (pair_view to)))) }
{
    let borrow = Term::compare_read(false, Relation::Less, a.low, b.low);
    let a_high = Term::read(a.high);
    let b_high = Term::read(b.high);
    straight.put(to.high, &Term::less_two(&a_high, &b_high, &borrow))?;
    straight.put(to.low, &Term::minus_read(a.low, b.low))
}

fn bits(straight: &mut Straight, op: BitOp, a: Pair, b: Pair, to: Pair) -> Result<(), AllocError>
    ensures { IfOk result (λ _. state_of straight.new ≡ run (state_of straight.old) (simples (wide.wide_bits (bit_view op) (pair_view a) (pair_view b) (pair_view to)))) }
{
    straight.put(to.low, &Term::both_read(op, a.low, b.low))?;
    straight.put(to.high, &Term::both_read(op, a.high, b.high))
}

// By a helper that takes both words and a count.
fn turn(
    straight: &mut Straight,
    helper: Fixed,
    a: Pair,
    to: Pair,
    count: &Term<'_>,
) -> Result<(), AllocError>
    ensures { IfOk result (λ _. state_of straight.new ≡ run (state_of straight.old) (simples (wide.wide_turn (fixed_view helper) (pair_view a) (pair_view to) (term_view count.now)))) }
{
    straight.ask(
        to.low,
        helper,
        &[Term::read(a.low), Term::read(a.high), *count],
    )?;
    straight.put(to.high, &Term::read(Name::Always(Fixed::SpareHigh)))
}

fn turn_right(straight: &mut Straight, a: Pair, b: Pair, to: Pair) -> Result<(), AllocError>
    ensures { IfOk result (λ _. state_of straight.new ≡ run (state_of straight.old) (simples (wide.wide_turn names.rotate_left (pair_view a) (pair_view to) (pairs.minus (pairs.literal 0) (words.read (pair_view b).low))))) }
{
    let none = Term::number(0);
    let places = Term::read(b.low);
    turn(
        straight,
        Fixed::RotateLeft,
        a,
        to,
        &Term::minus(&none, &places),
    )
}

// A number of bits, which is at most 64.
fn count(straight: &mut Straight, helper: Fixed, a: Pair, to: Pair) -> Result<(), AllocError>
    ensures { IfOk result (λ _. state_of straight.new ≡ run (state_of straight.old) (simples (wide.wide_count (fixed_view helper) (pair_view a) (pair_view to)))) }
{
    straight.ask(to.low, helper, &[Term::read(a.low), Term::read(a.high)])?;
    straight.put(to.high, &Term::number(0))
}

fn set_bits(straight: &mut Straight, a: Pair, to: Pair) -> Result<(), AllocError>
    ensures { IfOk result (λ _. state_of straight.new ≡ run (state_of straight.old) (simples (wide.wide_unary uns.Popcnt (pair_view a) (pair_view to)))) }
{
    set_bits_of_words(straight, a, to)?;
    straight.put(to.low, &Term::plus_read(to.low, to.high))?;
    straight.put(to.high, &Term::number(0))
}

// Those of each word in a word of its own.
fn set_bits_of_words(straight: &mut Straight, a: Pair, to: Pair) -> Result<(), AllocError>
    ensures { IfOk result (λ _. state_of straight.new ≡ run (state_of straight.old) (simples (words.ask (name_view to.low) names.set_bits (words.read (name_view a.low) ∷ []) ∷ words.ask (name_view to.high) names.set_bits (words.read (name_view a.high) ∷ []) ∷ []))) }
{
    straight.ask(to.low, Fixed::SetBits, &[Term::read(a.low)])?;
    straight.ask(to.high, Fixed::SetBits, &[Term::read(a.high)])
}
