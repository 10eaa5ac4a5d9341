//! The numbers that atoms write.

ghost use Rattle.std.specs.Prelude.{◌≡◌, ℕ, ◌+◌, ◌*◌, ◌^◌, ◌<◌, ◌≤◌, true, ◌&&◌, ◌==◌, codes, pos, IfSome, Some};
ghost use Rattle.wat_tokens.specs.declared.numbers.Base.TheVariants.{Ten};
ghost use Rattle.wat_lang.specs.Tokens as tokens;
ghost use Rattle.wat_lang.specs.Numbers as spec;
ghost use Rattle.wat_tokens.specs.Natural.{base_of, is_digit_of, natural_in, IsCapped, IsNatural};
ghost use Rattle.wat_tokens.specs.Numbers.{IsNumber, IsNumberOf};

use crate::bytes::{digit_value, is_digit, is_hexadecimal_digit};

/// A number of a text.
#[derive(Clone, Copy)]
pub enum Number {
    Whole(i128),
    /// One that is further from 0 than 2^64.
    Far,
}

#[derive(Clone, Copy)]
pub enum Base {
    Ten,
    Sixteen,
}

/// So many decimal digits fit into 64 bits, and one more.
const MOST_SHORT: usize = 18;

/// The greatest natural number that is told exactly.
const FARTHEST: u128 = 18_446_744_073_709_551_616;

fn is_digit_of(base: Base, b: u8) -> bool
    ensures { result ≡ is_digit_of base b }
{
    match base {
        Base::Ten => is_digit(b),
        Base::Sixteen => is_hexadecimal_digit(b),
    }
}

/// The number with one more digit, where it isn't past the farthest.
fn next_value(base: Base, value: u128, b: u8) -> u128
    requires { value ≤ 2 ^ 64 }
    ensures { result ≡ base_of base * value + tokens.digit_value b }
{
    let digit = u128::from(digit_value(b));
    match base {
        Base::Ten => 10 * value + digit,
        Base::Sixteen => 16 * value + digit,
    }
}

/// The number with one more digit, or one past the farthest where that is.
fn with_digit(base: Base, value: u128, b: u8) -> u128
    ensures { (n : ℕ) → IsCapped value n → IsCapped result (base_of base * n + tokens.digit_value b) }
{
    if value > FARTHEST {
        value
    } else {
        next_value(base, value, b)
    }
}

/// Whether it is a `_` behind a digit.
fn is_mark(after_digit: bool, b: u8) -> bool
    ensures { result ≡ (after_digit && (b == 95)) }
{
    after_digit && b == b'_'
}

/// The natural number of digits with single `_` between them, or one past the farthest where theirs is.
#[tactic(auto, using(crate::proofs::Digits::turns))]
fn natural_in(base: Base, s: &[u8]) -> Option<u128>
    ensures { IsNatural result (natural_in base s.now) }
{
    let mut n = 0;
    let mut value = 0u128;
    let mut after_digit = false;
    while n < s.len() {
        if is_digit_of(base, s[n]) {
            value = with_digit(base, value, s[n]);
            after_digit = true;
            n += 1;
        } else if is_mark(after_digit, s[n]) {
            after_digit = false;
            n += 1;
        } else {
            return None;
        }
    }
    if after_digit { Some(value) } else { None }
}

/// The number with one more decimal digit.
#[inline(always)]
fn with_short_digit(value: u64, b: u8) -> u64
    requires room { value ≤ 1000000000000000000 }
    requires digit { tokens.is_digit b ≡ true }
    ensures { result ≡ 10 * value + tokens.digit_value b }
{
    10 * value + u64::from(b - b'0')
}

/// The natural number of decimal digits alone, where they are few.
#[inline(always)]
#[tactic(auto, using(crate::proofs::Digits::turns))]
fn short_natural(s: &[u8]) -> Option<u64>
    ensures { IfSome result (λ v. (natural_in Ten s.now ≡ Some v) × (v < 10 ^ 18)) }
{
    if s.len() > MOST_SHORT {
        return None;
    }
    let mut n = 0;
    let mut value = 0u64;
    while n < s.len() {
        if !is_digit(s[n]) {
            return None;
        }
        value = with_short_digit(value, s[n]);
        n += 1;
    }
    if n > 0 { Some(value) } else { None }
}

/// The natural number of decimal digits.
fn decimal(s: &[u8]) -> Option<u128>
    ensures { IsNatural result (natural_in Ten s.now) }
{
    match short_natural(s) {
        Some(value) => Some(u128::from(value)),
        None => natural_in(Base::Ten, s),
    }
}

/// Whether it begins with `0x`.
fn begins_hexadecimal(s: &[u8]) -> bool
    ensures { result ≡ spec.begins_text (codes "0x") s.now }
{
    matches!(s, [b'0', b'x', ..])
}

/// The natural number that decimal or hexadecimal digits write.
fn natural_of(s: &[u8]) -> Option<u128>
    ensures { IsNatural result (spec.natural_of s.now) }
{
    if begins_hexadecimal(s) {
        natural_in(Base::Sixteen, s.get(2..)?)
    } else {
        decimal(s)
    }
}

fn plus(n: u128) -> Number
    ensures { (m : ℕ) → IsCapped n m → IsNumber result (pos m) }
{
    if n > FARTHEST {
        Number::Far
    } else {
        Number::Whole(n as i128)
    }
}

fn minus(n: u128) -> Number
    ensures { (m : ℕ) → IsCapped n m → IsNumber result (spec.minus m) }
{
    if n > FARTHEST {
        Number::Far
    } else {
        Number::Whole(-(n as i128))
    }
}

/// The number that an atom writes, if it writes one.
pub fn number_of(s: &[u8]) -> Option<Number>
    ensures { IsNumberOf result (spec.number_of s.now) }
{
    let Some(value) = short_natural(s) else {
        return any_number(s);
    };
    Some(Number::Whole(i128::from(value)))
}

/// The same with signs, marks, hexadecimal digits and numbers of any length.
#[inline(never)]
fn any_number(s: &[u8]) -> Option<Number>
    ensures { IsNumberOf result (spec.number_of s.now) }
{
    match s {
        [] => None,
        [b'-', digits @ ..] => match natural_of(digits) {
            None => None,
            Some(n) => Some(minus(n)),
        },
        [b'+', digits @ ..] => match natural_of(digits) {
            None => None,
            Some(n) => Some(plus(n)),
        },
        _ => match natural_of(s) {
            None => None,
            Some(n) => Some(plus(n)),
        },
    }
}
