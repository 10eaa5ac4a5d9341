//! Stores, and block operations.
ghost use Rattle.std.specs.Prelude.{◌≡◌, ◌+◌, ◌<◌, ◌^◌, [], ◌∷◌, ◌++◌, IfOk};
ghost use Rattle.wasm2js_translation.specs.Names as names;
ghost use Rattle.wasm2js_translation.specs.Words as words;
ghost use Rattle.wasm2js_translation.specs.Pairs as pairs;
ghost use Rattle.wasm2js_translation.specs.Pairs.{simples};
ghost use Rattle.wasm2js_translation.specs.Actions as code;
ghost use Rattle.wasm2js_nodes.specs.Names.{name_view, fixed_view};
ghost use Rattle.wasm2js_terms.specs.Views.{term_view, terms_view};
ghost use Rattle.wasm2js_build.specs.Growing.{one, run, state_of};
ghost use Rattle.split_words.specs.Views.{pair_view};

use crate::depths::low;
use crate::places::{by_place, place};
use split_words::{Pair, operand_pair};
use std::alloc::AllocError;
use wasm_lang::MemOp;
use wasm2js_build::{Step, Straight};
use wasm2js_nodes::{Fixed, Name};
use wasm2js_terms::{BitOp, Term};

// A store to a memory of so many bytes, to the address in a, of the value in v.
#[tactic(auto, using(wasm2js_build::proofs::Growing::run_joined))]
fn store(
    straight: &mut Straight,
    bytes: u64,
    op: MemOp,
    offset: u32,
    a: Name,
    v: Pair,
) -> Result<(), AllocError>
    ensures { IfOk result (λ _. state_of straight.new ≡ run (state_of straight.old) (code.store_code bytes op offset (name_view a) (pair_view v))) }
{
    let end = op.size as u64 + offset as u64;
    if end <= bytes {
        straight.guard(&Term::read(a), bytes - end, 2)?;
        store_word(straight, op, offset as u64, a, v)
    } else {
        straight.stop(2)
    }
}

/// Where the address is the operand of number d, and the value the next one.
pub fn store_at(
    straight: &mut Straight,
    bytes: u64,
    op: MemOp,
    offset: u32,
    d: u64,
) -> Result<(), AllocError>
    requires { d + 1 < 2 ^ 64 }
    ensures { IfOk result (λ _. state_of straight.new ≡ run (state_of straight.old) (code.store_code bytes op offset (code.low d) (pairs.operand_pair (d + 1)))) }
{
    store(straight, bytes, op, offset, low(d), operand_pair(d + 1))
}

/// The helper on the operand of number d and the next two.
pub fn tell_three(straight: &mut Straight, helper: Fixed, d: u64) -> Result<(), AllocError>
    requires { d + 2 < 2 ^ 64 }
    ensures { IfOk result (λ _. state_of straight.new ≡ run (state_of straight.old) (simples (words.tell (fixed_view helper) (code.three d) ∷ []))) }
{
    let first = Term::read(low(d));
    let second = Term::read(low(d + 1));
    let third = Term::read(low(d + 2));
    straight.tell(helper, &[first, second, third])
}

fn store_word(
    straight: &mut Straight,
    op: MemOp,
    offset: u64,
    a: Name,
    v: Pair,
) -> Result<(), AllocError>
    requires { offset < 2 ^ 32 }
    ensures { IfOk result (λ _. state_of straight.new ≡ run (state_of straight.old) (code.store_word op offset (name_view a) (pair_view v))) }
{
    if op.size == 1 {
        store_byte(straight, offset, a, v.low)
    } else if op.size == 2 {
        store_byte(straight, offset, a, v.low)?;
        store_upper(straight, offset + 1, a, v.low)
    } else if op.size == 4 {
        store_narrow(straight, offset, a, v.low)
    } else {
        store_wide(straight, offset, a, v)
    }
}

fn store_byte(straight: &mut Straight, offset: u64, a: Name, v: Name) -> Result<(), AllocError>
    requires { offset < 2 ^ 32 }
    ensures { IfOk result (λ _. state_of straight.new ≡ run (state_of straight.old) (simples (words.write_byte (code.place (name_view a) offset) (words.read (name_view v)) ∷ []))) }
{
    let address = Term::read(a);
    let at = place(&address, offset);
    straight.write_byte(&at, &Term::read(v))
}

// The second byte of a word.
fn store_upper(straight: &mut Straight, offset: u64, a: Name, v: Name) -> Result<(), AllocError>
    requires { offset < 2 ^ 33 }
    ensures { IfOk result (λ _. state_of straight.new ≡ run (state_of straight.old) (simples (words.write_byte (code.place (name_view a) offset) (words.both words.shift_right (words.read (name_view v)) (pairs.literal 8)) ∷ []))) }
{
    let address = Term::read(a);
    let at = place(&address, offset);
    let word = Term::read(v);
    straight.write_byte(&at, &Term::both_number(BitOp::Shr, &word, 8))
}

fn store_narrow(straight: &mut Straight, offset: u64, a: Name, v: Name) -> Result<(), AllocError>
    requires { offset < 2 ^ 32 }
    ensures { IfOk result (λ _. state_of straight.new ≡ run (state_of straight.old) (code.by_place (name_view a) offset (words.tell names.store_32 (code.place (name_view a) offset ∷ words.read (name_view v) ∷ []) ∷ []) (words.write_whole (code.place (name_view a) offset) (words.read (name_view v)) ∷ []))) }
{
    let address = Term::read(a);
    let test = place(&address, offset % 4);
    let at = place(&address, offset);
    store_whole(straight, &test, &at, &Term::read(v))
}

// A word to a place, which is a multiple of four where the test is.
fn store_whole<'a>(
    straight: &mut Straight,
    test: &Term<'_>,
    at: &'a Term<'a>,
    word: &'a Term<'a>,
) -> Result<(), AllocError>
    ensures { IfOk result (λ _. state_of straight.new ≡ one (state_of straight.old) (words.either (words.both words.conjunction (term_view test.now) (pairs.literal 3)) (words.tell names.store_32 (term_view at.now ∷ term_view word.now ∷ []) ∷ []) (words.write_whole (term_view at.now) (term_view word.now) ∷ []))) }
{
    tell_or_write(straight, test, &[*at, *word], at, word)
}

// By a helper, or where the test is a multiple of four at once.
fn tell_or_write<'a>(
    straight: &mut Straight,
    test: &Term<'_>,
    arguments: &'a [Term<'a>],
    at: &'a Term<'a>,
    word: &'a Term<'a>,
) -> Result<(), AllocError>
    ensures { IfOk result (λ _. state_of straight.new ≡ one (state_of straight.old) (words.either (words.both words.conjunction (term_view test.now) (pairs.literal 3)) (words.tell names.store_32 (terms_view arguments.now) ∷ []) (words.write_whole (term_view at.now) (term_view word.now) ∷ []))) }
{
    let apart = [Step::Tell(Fixed::Store32, arguments)];
    let together = [Step::WriteWhole(at, word)];
    by_place(straight, test, &apart, &together)
}

fn store_wide(straight: &mut Straight, offset: u64, a: Name, v: Pair) -> Result<(), AllocError>
    requires { offset < 2 ^ 32 }
    ensures { IfOk result (λ _. state_of straight.new ≡ run (state_of straight.old) (code.by_place (name_view a) offset (words.tell names.store_64 (code.place (name_view a) offset ∷ words.read (name_view v.low) ∷ words.read (name_view v.high) ∷ []) ∷ []) (words.write_whole (code.place (name_view a) offset) (words.read (name_view v.low)) ∷ words.write_whole (code.place (name_view a) (offset + 4)) (words.read (name_view v.high)) ∷ []))) }
{
    let address = Term::read(a);
    let test = place(&address, offset % 4);
    let at = place(&address, offset);
    let after = place(&address, offset + 4);
    store_words(
        straight,
        &test,
        &at,
        &after,
        &Term::read(v.low),
        &Term::read(v.high),
    )
}

// Two words to two places, which are multiples of four where the test is.
fn store_words<'a>(
    straight: &mut Straight,
    test: &Term<'_>,
    at: &'a Term<'a>,
    after: &'a Term<'a>,
    low: &'a Term<'a>,
    high: &'a Term<'a>,
) -> Result<(), AllocError>
    ensures { IfOk result (λ _. state_of straight.new ≡ one (state_of straight.old) (words.either (words.both words.conjunction (term_view test.now) (pairs.literal 3)) (words.tell names.store_64 (term_view at.now ∷ term_view low.now ∷ term_view high.now ∷ []) ∷ []) (words.write_whole (term_view at.now) (term_view low.now) ∷ words.write_whole (term_view after.now) (term_view high.now) ∷ []))) }
{
    tell_or_write_both(straight, test, &[*at, *low, *high], at, after, low, high)
}

// By a helper, or where the test is a multiple of four at once.
fn tell_or_write_both<'a>(
    straight: &mut Straight,
    test: &Term<'_>,
    arguments: &'a [Term<'a>],
    at: &'a Term<'a>,
    after: &'a Term<'a>,
    low: &'a Term<'a>,
    high: &'a Term<'a>,
) -> Result<(), AllocError>
    ensures { IfOk result (λ _. state_of straight.new ≡ one (state_of straight.old) (words.either (words.both words.conjunction (term_view test.now) (pairs.literal 3)) (words.tell names.store_64 (terms_view arguments.now) ∷ []) (words.write_whole (term_view at.now) (term_view low.now) ∷ words.write_whole (term_view after.now) (term_view high.now) ∷ []))) }
{
    let apart = [Step::Tell(Fixed::Store64, arguments)];
    let together = [Step::WriteWhole(at, low), Step::WriteWhole(after, high)];
    by_place(straight, test, &apart, &together)
}
