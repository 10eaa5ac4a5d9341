//! Numbers and decimals at the front of a text.

ghost use Rattle.std.specs.Prelude.{◌≡◌, ◌≤◌, ◌<◌, ◌+◌, ◌*◌, MatchOption, true, false, ◌∷◌, length, take};
ghost use Rattle.std.specs.Bool.{OnTrue};
ghost use Rattle.std.specs.List.{prefix_len};
ghost use Rattle.asm_lang_tokens.specs.Bytes.{is_digit, digit_value};
ghost use Rattle.asm_lang_tokens.specs.Forms.{value_in};
ghost use Rattle.js_tokens.specs.Scan.{is_digit_in, number_of, fits_in, value_len, fraction_len, begins_mark, begins_nonzero, IsToken};

use crate::bytes::{digit_value, is_digit, is_hexadecimal_digit, is_hexadecimal_mark};
use crate::token::TokenKind;

/// The base in which a number is written.
#[derive(Clone, Copy, Debug)]
pub enum Base {
    Ten,
    Sixteen,
}

impl Base {
    fn number(self) -> u64
        ensures { result ≡ number_of self }
    {
        match self {
            Base::Ten => 10,
            Base::Sixteen => 16,
        }
    }

    fn has_digit(self, b: u8) -> bool
        ensures { result ≡ is_digit_in self b }
    {
        match self {
            Base::Ten => is_digit(b),
            Base::Sixteen => is_hexadecimal_digit(b),
        }
    }
}

/// The value with one more digit, if this is a digit and the value stays below 2^64.
fn with_digit(base: Base, value: u64, b: u8) -> Option<u64>
    ensures { MatchOption result (fits_in base value b ≡ false)
        (λ next. (fits_in base value b ≡ true) × (next ≡ number_of base * value + digit_value b)) }
{
    if !base.has_digit(b) {
        return None;
    }
    value
        .checked_mul(base.number())?
        .checked_add(u64::from(digit_value(b)))
}

/// How many digits stand at the front, as long as their value is below 2^64, and that value.
fn value_at(base: Base, s: &[u8]) -> (u64, usize)
    ensures len { result.1 ≡ value_len base 0 s.now }
    ensures within { result.1 ≤ length s.now }
    ensures value { result.0 ≡ value_in (number_of base) 0 (take result.1 s.now) }
{
    let mut value: u64 = 0;
    let mut n = 0;
    while n < s.len() {
        match with_digit(base, value, s[n]) {
            Some(next) => value = next,
            None => return (value, n),
        }
        n += 1;
    }
    (value, n)
}

/// How many digits stand at the front.
pub fn digits_len(s: &[u8]) -> usize
    ensures value { result ≡ prefix_len is_digit s.now }
    ensures within { result ≤ length s.now }
{
    let mut n = 0;
    while n < s.len() && is_digit(s[n]) {
        n += 1;
    }
    n
}

/// How many bytes a dot at the front and the digits after it take, or 0.
fn fraction_len(s: &[u8]) -> usize
    ensures value { result ≡ fraction_len s.now }
    ensures within { result ≤ length s.now }
{
    match s {
        [b'.', rest @ ..] => 1 + digits_len(rest),
        _ => 0,
    }
}

/// The longest number or decimal at the front of a `0` and what follows it.
fn zero_at(rest: &[u8]) -> (TokenKind, usize)
    ensures { IsToken (48 ∷ rest.now) result.0 result.1 }
{
    if begins_mark(rest) {
        let (_, digits) = rest.split_at(1);
        let (value, n) = value_at(Base::Sixteen, digits);
        if n == 0 {
            (TokenKind::Number(0), 1)
        } else {
            (TokenKind::Number(value), n + 2)
        }
    } else {
        match fraction_len(rest) {
            0 => (TokenKind::Number(0), 1),
            n => (TokenKind::Decimal, n + 1),
        }
    }
}

fn begins_mark(s: &[u8]) -> bool
    ensures value { result ≡ begins_mark s.now }
    ensures some { OnTrue result (0 < length s.now) }
{
    match s {
        [] => false,
        [b, ..] => is_hexadecimal_mark(*b),
    }
}

/// The longest number or decimal at the front, which begins with another digit than 0.
fn digits_at(s: &[u8]) -> (TokenKind, usize)
    requires { begins_nonzero s.now ≡ true }
    ensures { IsToken s.now result.0 result.1 }
{
    let whole = digits_len(s);
    let (_, after) = s.split_at(whole);
    match fraction_len(after) {
        0 => {
            let (value, n) = value_at(Base::Ten, s);
            (TokenKind::Number(value), n)
        }
        n => (TokenKind::Decimal, whole + n),
    }
}

/// The longest number or decimal at the front of a text that begins with this digit.
pub fn numeral_at(first: u8, rest: &[u8], s: &[u8]) -> (TokenKind, usize)
    requires whole { s.now ≡ first ∷ rest.now }
    requires digit { is_digit first ≡ true }
    ensures { IsToken s.now result.0 result.1 }
{
    if first == b'0' {
        zero_at(rest)
    } else {
        digits_at(s)
    }
}
