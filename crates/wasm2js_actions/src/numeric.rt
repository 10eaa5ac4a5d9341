//! Operators on words of 32 bits, changes of width, and constants.
ghost use Rattle.std.specs.Prelude.{◌≡◌, [], ◌∷◌, ◌++◌, true, IfOk};
ghost use Rattle.sem_words.specs.declared.word.Un.TheVariants as uns;
ghost use Rattle.sem_words.specs.Words.{signed_of};
ghost use Rattle.session_lang.specs.Imports.{low_word, high_word};
ghost use Rattle.wasm2js_translation.specs.Words as words;
ghost use Rattle.wasm2js_translation.specs.Pairs as pairs;
ghost use Rattle.wasm2js_translation.specs.Pairs.{simples};
ghost use Rattle.wasm2js_translation.specs.Actions as code;
ghost use Rattle.wasm2js_nodes.specs.Names.{name_view, fixed_view};
ghost use Rattle.wasm2js_terms.specs.Views.{bit_view, relation_view, term_view};
ghost use Rattle.wasm2js_build.specs.Growing.{run, state_of};
ghost use Rattle.split_words.specs.Views.{pair_view};

use sem_words::{Bin, Rel, Un};
use split_words::{Pair, put_extended, put_extension, put_sign};
use std::alloc::AllocError;
use wasm2js_accesses::put_number;
use wasm2js_build::Straight;
use wasm2js_nodes::{Fixed, Name};
use wasm2js_terms::{BitOp, Relation, Term};

/// Of the operands in a and b, in a.
pub fn binary(straight: &mut Straight, op: Bin, a: Name, b: Name) -> Result<(), AllocError>
    ensures { IfOk result (λ _. state_of straight.new ≡ run (state_of straight.old) (simples (code.narrow_binary op (name_view a) (name_view b)))) }
{
    match op {
        Bin::Add => straight.put(a, &Term::plus_read(a, b)),
        Bin::Sub => straight.put(a, &Term::minus_read(a, b)),
        Bin::Mul => straight.put(a, &Term::product(&Term::read(a), &Term::read(b))),
        Bin::DivS => ask_both(straight, Fixed::DivideSigned, a, b),
        Bin::DivU => ask_both(straight, Fixed::Divide, a, b),
        Bin::RemS => ask_both(straight, Fixed::RemainderSigned, a, b),
        Bin::RemU => ask_both(straight, Fixed::Remainder, a, b),
        Bin::And => put_both(straight, BitOp::And, a, b),
        Bin::Or => put_both(straight, BitOp::Or, a, b),
        Bin::Xor => put_both(straight, BitOp::Xor, a, b),
        Bin::Shl => put_both(straight, BitOp::Shl, a, b),
        Bin::ShrS => put_both(straight, BitOp::Sar, a, b),
        Bin::ShrU => put_both(straight, BitOp::Shr, a, b),
        Bin::Rotl => turn_left(straight, a, b),
        Bin::Rotr => turn_right(straight, a, b),
    }
}

pub fn unary(straight: &mut Straight, op: Un, a: Name) -> Result<(), AllocError>
    ensures { IfOk result (λ _. state_of straight.new ≡ run (state_of straight.old) (simples (code.narrow_unary op (name_view a)))) }
{
    match op {
        Un::Clz => straight.put(a, &Term::zeros(&Term::read(a))),
        Un::Ctz => trailing_zeros(straight, a),
        Un::Popcnt => straight.ask(a, Fixed::SetBits, &[Term::read(a)]),
    }
}

/// Of the operands in a and b, in a.
pub fn relation(straight: &mut Straight, op: Rel, a: Name, b: Name) -> Result<(), AllocError>
    ensures { IfOk result (λ _. state_of straight.new ≡ run (state_of straight.old) (simples (words.put (name_view a) (code.narrow_relation op (words.read (name_view a)) (words.read (name_view b))) ∷ []))) }
{
    match op {
        Rel::Eq => put_compared(straight, true, Relation::Equal, a, b),
        Rel::Ne => put_compared(straight, true, Relation::Unequal, a, b),
        Rel::LtS => put_compared(straight, true, Relation::Less, a, b),
        Rel::LtU => put_compared(straight, false, Relation::Less, a, b),
        Rel::GtS => put_compared(straight, true, Relation::Greater, a, b),
        Rel::GtU => put_compared(straight, false, Relation::Greater, a, b),
        Rel::LeS => put_compared(straight, true, Relation::AtMost, a, b),
        Rel::LeU => put_compared(straight, false, Relation::AtMost, a, b),
        Rel::GeS => put_compared(straight, true, Relation::AtLeast, a, b),
        Rel::GeU => put_compared(straight, false, Relation::AtLeast, a, b),
    }
}

/// Whether the word in a is 0.
pub fn is_zero(straight: &mut Straight, a: Name) -> Result<(), AllocError>
    ensures { IfOk result (λ _. state_of straight.new ≡ run (state_of straight.old) (simples (words.put (name_view a) (words.compare true words.equal (words.read (name_view a)) (pairs.literal 0)) ∷ []))) }
{
    let word = Term::read(a);
    straight.put(a, &Term::compare_number(true, Relation::Equal, &word, 0))
}

/// The low bits of an operand, of 64 bits where it is wide, extended with their sign.
pub fn sign_extended(
    straight: &mut Straight,
    wide: bool,
    bits: u32,
    a: Pair,
) -> Result<(), AllocError>
    ensures { IfOk result (λ _. state_of straight.new ≡ run (state_of straight.old) (simples (code.sign_extended wide bits (pair_view a)))) }
{
    if !wide {
        put_extended(straight, bits, a.low, a.low)
    } else if bits == 32 {
        put_sign(straight, a.low, a.high)
    } else {
        put_extension(straight, bits, a, a)
    }
}

/// A constant by its word.
pub fn narrow_constant(straight: &mut Straight, to: Name, word: u32) -> Result<(), AllocError>
    ensures { IfOk result (λ _. state_of straight.new ≡ run (state_of straight.old) (simples (words.put (name_view to) (words.number (signed_of 32 word)) ∷ []))) }
{
    put_number(straight, to, signed_number(word))
}

pub fn wide_constant(straight: &mut Straight, to: Pair, word: u64) -> Result<(), AllocError>
    ensures { IfOk result (λ _. state_of straight.new ≡ run (state_of straight.old) (simples (words.put (name_view to.low) (words.number (signed_of 32 (low_word word))) ∷ words.put (name_view to.high) (words.number (signed_of 32 (high_word word))) ∷ []))) }
{
    put_number(straight, to.low, signed_number(low_half(word)))?;
    put_number(straight, to.high, signed_number(high_half(word)))
}

// The number of a word with its sign.
fn signed_number(word: u32) -> i64
    ensures { result ≡ signed_of 32 word }
{
    if word < 0x8000_0000 {
        word as i64
    } else {
        word as i64 - 0x1_0000_0000
    }
}

fn low_half(word: u64) -> u32
    ensures { result ≡ low_word word }
{
    (word % 0x1_0000_0000) as u32
}

fn high_half(word: u64) -> u32
    ensures { result ≡ high_word word }
{
    (word / 0x1_0000_0000) as u32
}

fn ask_both(straight: &mut Straight, helper: Fixed, a: Name, b: Name) -> Result<(), AllocError>
    ensures { IfOk result (λ _. state_of straight.new ≡ run (state_of straight.old) (simples (words.ask (name_view a) (fixed_view helper) (words.read (name_view a) ∷ words.read (name_view b) ∷ []) ∷ []))) }
{
    straight.ask(a, helper, &[Term::read(a), Term::read(b)])
}

fn put_both(straight: &mut Straight, op: BitOp, a: Name, b: Name) -> Result<(), AllocError>
    ensures { IfOk result (λ _. state_of straight.new ≡ run (state_of straight.old) (simples (words.put (name_view a) (words.both (bit_view op) (words.read (name_view a)) (words.read (name_view b))) ∷ []))) }
{
    straight.put(a, &Term::both_read(op, a, b))
}

fn put_compared(
    straight: &mut Straight,
    signed: bool,
    relation: Relation,
    a: Name,
    b: Name,
) -> Result<(), AllocError>
    ensures { IfOk result (λ _. state_of straight.new ≡ run (state_of straight.old) (simples (words.put (name_view a) (words.compare signed (relation_view relation) (words.read (name_view a)) (words.read (name_view b))) ∷ []))) }
{
    straight.put(a, &Term::compare_read(signed, relation, a, b))
}

// By 32 places less those to the left, two shifts to the right, since a shift by 32 places is none.
fn turn_left(straight: &mut Straight, a: Name, b: Name) -> Result<(), AllocError>
    ensures { IfOk result (λ _. state_of straight.new ≡ run (state_of straight.old) (simples (words.put (name_view a) (pairs.funnel_left (words.read (name_view a)) (words.read (name_view a)) (words.read (name_view b))) ∷ []))) }
{
    let word = Term::read(a);
    let half = Term::both_number(BitOp::Shr, &word, 1);
    put_turned(straight, a, b, &half, BitOp::Shl, BitOp::Shr)
}

fn turn_right(straight: &mut Straight, a: Name, b: Name) -> Result<(), AllocError>
    ensures { IfOk result (λ _. state_of straight.new ≡ run (state_of straight.old) (simples (words.put (name_view a) (pairs.funnel_right (words.read (name_view a)) (words.read (name_view a)) (words.read (name_view b))) ∷ []))) }
{
    let word = Term::read(a);
    let double = Term::both_number(BitOp::Shl, &word, 1);
    put_turned(straight, a, b, &double, BitOp::Shr, BitOp::Shl)
}

// The word in a by as many places as b says, and what comes in at its other end: a word that is one place on already, by the rest of them.
fn put_turned(
    straight: &mut Straight,
    a: Name,
    b: Name,
    one_on: &Term<'_>,
    to: BitOp,
    back: BitOp,
) -> Result<(), AllocError>
    ensures { IfOk result (λ _. state_of straight.new ≡ run (state_of straight.old) (simples (words.put (name_view a) (pairs.plus (words.both (bit_view to) (words.read (name_view a)) (words.read (name_view b))) (words.both (bit_view back) (term_view one_on.now) (words.flip (words.read (name_view b))))) ∷ []))) }
{
    let places = Term::read(b);
    let rest = Term::flip(&places);
    let moved = Term::both_read(to, a, b);
    straight.put(a, &Term::plus(&moved, &Term::both(back, one_on, &rest)))
}

// By the bits below the lowest one that is set.
fn trailing_zeros(straight: &mut Straight, a: Name) -> Result<(), AllocError>
    ensures { IfOk result (λ _. state_of straight.new ≡ run (state_of straight.old) (simples (code.narrow_unary uns.Ctz (name_view a)))) }
{
    let word = Term::read(a);
    let others = Term::flip(&word);
    let before = Term::minus_number(&word, 1);
    put_fewer(straight, a, 32, &Term::both(BitOp::And, &others, &before))
}

// So many less the leading zeros of a word.
fn put_fewer(
    straight: &mut Straight,
    to: Name,
    most: i64,
    word: &Term<'_>,
) -> Result<(), AllocError>
    ensures { IfOk result (λ _. state_of straight.new ≡ run (state_of straight.old) (simples (words.put (name_view to) (pairs.minus (words.number most) (words.zeros (term_view word.now))) ∷ []))) }
{
    let leading = Term::zeros(word);
    let most = Term::number(most);
    straight.put(to, &Term::minus(&most, &leading))
}
