//! What stands next in a string.

ghost use Rattle.std.specs.Prelude.{◌≡◌, ◌<◌, ◌≤◌, ◌+◌, ◌*◌, ◌∷◌, [], true, false, IfSome, MatchOption, length, drop};
ghost use Rattle.std.specs.List.{prefix_len};
ghost use Rattle.wat_lang.specs.Tokens as spec;
ghost use Rattle.wat_lang.specs.Tokens.{is_scalar, value_in};
ghost use Rattle.wat_tokens.specs.Fronts.{piece_view, Fits};

use crate::bytes::{begins_with, digit_value, is_hexadecimal_digit, value_or_more};

/// What stands next in a string. The numbers say how many bytes a character takes besides its first.
#[derive(Clone, Copy)]
pub enum Piece {
    /// The quote that closes it.
    Quote,
    /// A byte as it stands.
    Byte(u8),
    /// A byte behind a backslash.
    Escape(u8, usize),
    /// A Unicode scalar value.
    Scalar(u32, usize),
    /// Nothing that may stand in a string.
    Bad,
}

/// How many hexadecimal digits stand at the front.
fn hexadecimal_len(s: &[u8]) -> usize
    ensures value { result ≡ prefix_len spec.is_hexadecimal_digit s.now }
    ensures within { result ≤ length s.now }
{
    let mut n = 0;
    while n < s.len() && is_hexadecimal_digit(s[n]) {
        n += 1;
    }
    n
}

fn is_scalar(c: u32) -> bool
    ensures { result ≡ is_scalar c }
{
    c < 0xd800 || (0xe000 <= c && c < 0x110000)
}

/// The number that digits write, or one past all scalar values where theirs is.
fn capped_value(digits: &[u8]) -> u32
    ensures value { is_scalar result ≡ true → result ≡ value_in 16 0 digits.now }
    ensures past { is_scalar result ≡ false → is_scalar (value_in 16 0 digits.now) ≡ false }
{
    let mut value = 0;
    for digit in digits {
        if value >= 0x110000 {
            return value;
        }
        value = 16 * value + u32::from(digit_value(*digit));
    }
    value
}

/// The scalar value that digits write.
fn scalar_value(digits: &[u8]) -> Option<u32>
    ensures { MatchOption result (is_scalar (value_in 16 0 digits.now) ≡ false) (λ c. (is_scalar c ≡ true) × (c ≡ value_in 16 0 digits.now)) }
{
    let value = capped_value(digits);
    if is_scalar(value) { Some(value) } else { None }
}

/// The character of k digits that stand in braces.
fn unicode_piece(k: usize, s: &[u8]) -> Piece
    requires { k ≤ length s.now }
    ensures view { piece_view result ≡ spec.unicode_piece k s.now }
    ensures fits { Fits result 3 s.now }
{
    let (digits, after) = s.split_at(k);
    if !(k > 0 && begins_with(b'}', after)) {
        return Piece::Bad;
    }
    match scalar_value(digits) {
        Some(c) => Piece::Scalar(c, k + 3),
        None => Piece::Bad,
    }
}

/// Behind `\u`.
fn brace_piece(s: &[u8]) -> Piece
    ensures view { piece_view result ≡ spec.brace_piece s.now }
    ensures fits { Fits result 2 s.now }
{
    match s {
        [b'{', inner @ ..] => unicode_piece(hexadecimal_len(inner), inner),
        _ => Piece::Bad,
    }
}

/// Two hexadecimal digits behind a backslash.
fn byte_piece(s: &[u8]) -> Piece
    ensures view { piece_view result ≡ spec.byte_piece s.now }
    ensures fits { Fits result 1 s.now }
{
    match s {
        [a, b, ..] => {
            if is_hexadecimal_digit(*a) && is_hexadecimal_digit(*b) {
                Piece::Escape(two_digits(*a, *b), 2)
            } else {
                Piece::Bad
            }
        }
        _ => Piece::Bad,
    }
}

fn two_digits(a: u8, b: u8) -> u8
    requires high { spec.is_hexadecimal_digit a ≡ true }
    requires low { spec.is_hexadecimal_digit b ≡ true }
    ensures { result ≡ 16 * spec.digit_value a + spec.digit_value b }
{
    16 * digit_value(a) + digit_value(b)
}

/// The byte that two hexadecimal digits behind a backslash stand for, where those three stand at n.
#[inline(always)]
pub fn byte_escape(s: &[u8], n: usize) -> Option<u8>
    requires { n < length s.now }
    ensures { IfSome result (λ value. (spec.character (value ∷ []) 2 ≡ spec.piece_of (drop n s.now)) × (n + 3 ≤ length s.now)) }
{
    if s[n] != b'\\' || s.len() - n < 3 {
        return None;
    }
    let high = value_or_more(s[n + 1]);
    let low = value_or_more(s[n + 2]);
    if high < 16 && low < 16 {
        Some(16 * high + low)
    } else {
        None
    }
}

/// The byte that a letter or sign behind a backslash stands for.
fn escaped(b: u8) -> Option<u8>
    ensures { result ≡ spec.escaped b }
{
    match b {
        b't' => Some(b'\t'),
        b'n' => Some(b'\n'),
        b'r' => Some(b'\r'),
        b'"' | b'\'' | b'\\' => Some(b),
        _ => None,
    }
}

/// Behind a backslash.
fn escape_piece(s: &[u8]) -> Piece
    ensures view { piece_view result ≡ spec.escape_piece s.now }
    ensures fits { Fits result 1 s.now }
{
    match s {
        [] => Piece::Bad,
        [first, rest @ ..] => match escaped(*first) {
            Some(value) => Piece::Escape(value, 1),
            None => {
                if *first == b'u' {
                    brace_piece(rest)
                } else {
                    byte_piece(s)
                }
            }
        },
    }
}

/// What stands next in a string.
#[inline(never)]
pub fn piece_of(s: &[u8]) -> Piece
    ensures view { piece_view result ≡ spec.piece_of s.now }
    ensures fits { Fits result 0 s.now }
{
    match s {
        [] => Piece::Bad,
        [b'"', ..] => Piece::Quote,
        [b'\\', rest @ ..] => escape_piece(rest),
        [b, ..] => {
            if *b >= b' ' && *b != 127 {
                Piece::Byte(*b)
            } else {
                Piece::Bad
            }
        }
    }
}
