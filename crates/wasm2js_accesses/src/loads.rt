//! Loads.
ghost use Rattle.std.specs.Prelude.{◌≡◌, ◌+◌, ◌<◌, ◌^◌, [], ◌∷◌, ◌++◌, ◌==◌, if◌then◌else◌, false, IfOk};
ghost use Rattle.wasm2js_translation.specs.Names as names;
ghost use Rattle.wasm2js_translation.specs.Words as words;
ghost use Rattle.wasm2js_translation.specs.Pairs as pairs;
ghost use Rattle.wasm2js_translation.specs.Pairs.{simples};
ghost use Rattle.wasm2js_translation.specs.Actions as code;
ghost use Rattle.wasm2js_nodes.specs.Names.{name_view};
ghost use Rattle.wasm2js_terms.specs.Views.{term_view, terms_view};
ghost use Rattle.wasm2js_build.specs.Growing.{one, run, state_of};
ghost use Rattle.split_words.specs.Views.{pair_view};

use crate::numbers::put_number;
use crate::places::{by_place, place};
use split_words::{Pair, operand_pair, put_sign};
use std::alloc::AllocError;
use wasm_lang::MemOp;
use wasm2js_build::{Step, Straight};
use wasm2js_nodes::{Fixed, Name};
use wasm2js_terms::{BitOp, Term};

// A load from a memory of so many bytes, whose address stands in the low one of the variables that it fills.
#[tactic(auto, using(wasm2js_build::proofs::Growing::run_joined))]
fn load(
    straight: &mut Straight,
    bytes: u64,
    op: MemOp,
    offset: u32,
    p: Pair,
) -> Result<(), AllocError>
    ensures { IfOk result (λ _. state_of straight.new ≡ run (state_of straight.old) (code.load_code bytes op offset (pair_view p))) }
{
    let end = op.size as u64 + offset as u64;
    if end <= bytes {
        straight.guard(&Term::read(p.low), bytes - end, 2)?;
        load_word(straight, op, offset, p)?;
        load_high(straight, op, p)
    } else {
        straight.stop(2)
    }
}

/// Where the address is the operand of number d.
pub fn load_at(
    straight: &mut Straight,
    bytes: u64,
    op: MemOp,
    offset: u32,
    d: u64,
) -> Result<(), AllocError>
    ensures { IfOk result (λ _. state_of straight.new ≡ run (state_of straight.old) (code.load_code bytes op offset (pairs.operand_pair d))) }
{
    load(straight, bytes, op, offset, operand_pair(d))
}

fn load_word(straight: &mut Straight, op: MemOp, offset: u32, p: Pair) -> Result<(), AllocError>
    ensures { IfOk result (λ _. state_of straight.new ≡ run (state_of straight.old) (code.load_word op offset (pair_view p))) }
{
    let offset = offset as u64;
    if op.size == 1 {
        load_byte(straight, op.signed, offset, p.low)
    } else if op.size == 2 {
        load_half(straight, op.signed, offset, p.low)
    } else if op.size == 4 {
        load_narrow(straight, offset, p)
    } else {
        load_wide(straight, offset, p)
    }
}

// The high word, where fewer bytes than eight were loaded as a word of 64 bits.
fn load_high(straight: &mut Straight, op: MemOp, p: Pair) -> Result<(), AllocError>
    ensures { IfOk result (λ _. state_of straight.new ≡ run (state_of straight.old) (code.load_high op (pair_view p))) }
{
    if op.wide && op.size < 8 {
        put_high(straight, op.signed, p)
    } else {
        Ok(())
    }
}

fn put_high(straight: &mut Straight, signed: bool, p: Pair) -> Result<(), AllocError>
    ensures { IfOk result (λ _. state_of straight.new ≡ run (state_of straight.old) (simples (words.put (name_view p.high) (if signed then pairs.sign_of (words.read (name_view p.low)) else pairs.literal 0) ∷ []))) }
{
    if signed {
        put_sign(straight, p.low, p.high)
    } else {
        put_number(straight, p.high, 0)
    }
}

fn load_byte(straight: &mut Straight, signed: bool, offset: u64, p: Name) -> Result<(), AllocError>
    requires { offset < 2 ^ 32 }
    ensures { IfOk result (λ _. state_of straight.new ≡ run (state_of straight.old) (simples (words.put (name_view p) (words.byte signed (code.place (name_view p) offset)) ∷ []))) }
{
    let address = Term::read(p);
    let at = place(&address, offset);
    straight.put(p, &Term::byte(signed, &at))
}

// Of two bytes the upper one has the sign.
fn load_half(straight: &mut Straight, signed: bool, offset: u64, p: Name) -> Result<(), AllocError>
    requires { offset < 2 ^ 32 }
    ensures { IfOk result (λ _. state_of straight.new ≡ run (state_of straight.old) (simples (words.put (name_view p) (code.half signed (name_view p) offset) ∷ []))) }
{
    let address = Term::read(p);
    let at = place(&address, offset);
    let after = place(&address, offset + 1);
    put_half(straight, signed, &at, &after, p)
}

// Of the byte at one place, and above it the one at the next.
fn put_half<'a>(
    straight: &mut Straight,
    signed: bool,
    at: &'a Term<'a>,
    after: &'a Term<'a>,
    p: Name,
) -> Result<(), AllocError>
    ensures { IfOk result (λ _. state_of straight.new ≡ run (state_of straight.old) (simples (words.put (name_view p) (pairs.plus (words.byte false (term_view at.now)) (words.both words.shift_left (words.byte signed (term_view after.now)) (pairs.literal 8))) ∷ []))) }
{
    let low = Term::byte(false, at);
    let upper = Term::byte(signed, after);
    let high = Term::both_number(BitOp::Shl, &upper, 8);
    straight.put(p, &Term::plus(&low, &high))
}

fn load_narrow(straight: &mut Straight, offset: u64, p: Pair) -> Result<(), AllocError>
    requires { offset < 2 ^ 32 }
    ensures { IfOk result (λ _. state_of straight.new ≡ run (state_of straight.old) (code.by_place (name_view p.low) offset (words.ask (name_view p.low) names.load_32 (code.place (name_view p.low) offset ∷ []) ∷ []) (words.put (name_view p.low) (words.whole (code.place (name_view p.low) offset)) ∷ []))) }
{
    let address = Term::read(p.low);
    let test = place(&address, offset % 4);
    let at = place(&address, offset);
    load_whole(straight, &test, &at, p.low)
}

// The word at a place, which is a multiple of four where the test is.
fn load_whole<'a>(
    straight: &mut Straight,
    test: &Term<'_>,
    at: &'a Term<'a>,
    p: Name,
) -> Result<(), AllocError>
    ensures { IfOk result (λ _. state_of straight.new ≡ one (state_of straight.old) (words.either (words.both words.conjunction (term_view test.now) (pairs.literal 3)) (words.ask (name_view p) names.load_32 (term_view at.now ∷ []) ∷ []) (words.put (name_view p) (words.whole (term_view at.now)) ∷ []))) }
{
    ask_or_put(straight, test, &[*at], &Term::whole(at), p)
}

// By a helper, or the word where the test is a multiple of four.
fn ask_or_put<'a>(
    straight: &mut Straight,
    test: &Term<'_>,
    arguments: &'a [Term<'a>],
    word: &'a Term<'a>,
    p: Name,
) -> Result<(), AllocError>
    ensures { IfOk result (λ _. state_of straight.new ≡ one (state_of straight.old) (words.either (words.both words.conjunction (term_view test.now) (pairs.literal 3)) (words.ask (name_view p) names.load_32 (terms_view arguments.now) ∷ []) (words.put (name_view p) (term_view word.now) ∷ []))) }
{
    let apart = [Step::Ask(p, Fixed::Load32, arguments)];
    let together = [Step::Put(p, word)];
    by_place(straight, test, &apart, &together)
}

// The address stands until the low word is loaded.
fn load_wide(straight: &mut Straight, offset: u64, p: Pair) -> Result<(), AllocError>
    requires { offset < 2 ^ 32 }
    ensures { IfOk result (λ _. state_of straight.new ≡ run (state_of straight.old) (code.by_place (name_view p.low) offset (words.ask (name_view p.low) names.load_64 (code.place (name_view p.low) offset ∷ []) ∷ words.put (name_view p.high) (words.read (names.fixed names.spare_high)) ∷ []) (words.put (name_view p.high) (words.whole (code.place (name_view p.low) (offset + 4))) ∷ words.put (name_view p.low) (words.whole (code.place (name_view p.low) offset)) ∷ []))) }
{
    let address = Term::read(p.low);
    let test = place(&address, offset % 4);
    let at = place(&address, offset);
    let after = place(&address, offset + 4);
    load_words(straight, &test, &at, &after, p)
}

// The words at two places, the first one as the low word; they are multiples of four where the test is.
fn load_words<'a>(
    straight: &mut Straight,
    test: &Term<'_>,
    at: &'a Term<'a>,
    after: &'a Term<'a>,
    p: Pair,
) -> Result<(), AllocError>
    ensures { IfOk result (λ _. state_of straight.new ≡ one (state_of straight.old) (words.either (words.both words.conjunction (term_view test.now) (pairs.literal 3)) (words.ask (name_view p.low) names.load_64 (term_view at.now ∷ []) ∷ words.put (name_view p.high) (words.read (names.fixed names.spare_high)) ∷ []) (words.put (name_view p.high) (words.whole (term_view after.now)) ∷ words.put (name_view p.low) (words.whole (term_view at.now)) ∷ []))) }
{
    let spare = Term::read(Name::Always(Fixed::SpareHigh));
    let low = Term::whole(at);
    let high = Term::whole(after);
    ask_or_put_both(straight, test, &[*at], &spare, &low, &high, p)
}

// By a helper of the place, or the words where the test is a multiple of four.
fn ask_or_put_both<'a>(
    straight: &mut Straight,
    test: &Term<'_>,
    arguments: &'a [Term<'a>],
    spare: &'a Term<'a>,
    low: &'a Term<'a>,
    high: &'a Term<'a>,
    p: Pair,
) -> Result<(), AllocError>
    ensures { IfOk result (λ _. state_of straight.new ≡ one (state_of straight.old) (words.either (words.both words.conjunction (term_view test.now) (pairs.literal 3)) (words.ask (name_view p.low) names.load_64 (terms_view arguments.now) ∷ words.put (name_view p.high) (term_view spare.now) ∷ []) (words.put (name_view p.high) (term_view high.now) ∷ words.put (name_view p.low) (term_view low.now) ∷ []))) }
{
    let apart = [
        Step::Ask(p.low, Fixed::Load64, arguments),
        Step::Put(p.high, spare),
    ];
    let together = [Step::Put(p.high, high), Step::Put(p.low, low)];
    by_place(straight, test, &apart, &together)
}
