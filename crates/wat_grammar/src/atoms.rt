//! What an atom is: a number, an id, or a word with a number.

ghost use Rattle.std.specs.Prelude.{◌≡◌, Bool, is_some, codes};
ghost use Rattle.wat_lang.specs.Tokens.{is_digit, is_hexadecimal_digit};
ghost use Rattle.wat_lang.specs.Numbers.{access_of, digits_in, is_id, natural_of, number_of};
ghost use Rattle.wat_grammar.specs.Views.{are_plain_digits, behind_underscore, digit_test, is_sign};

fn is_digit(hexadecimal: bool, byte: u8) -> bool
    ensures { result ≡ digit_test hexadecimal byte }
{
    byte.is_ascii_digit()
        || (hexadecimal && (matches!(byte, b'a'..=b'f') || matches!(byte, b'A'..=b'F')))
}

/// Whether the bytes are digits, with at most one `_` between two of them.
#[tactic(auto, using(crate::proofs::Digits::digits_left, crate::proofs::Digits::no_digits, crate::proofs::Digits::last_digit, crate::proofs::Digits::shorter))]
fn are_digits(hexadecimal: bool, bytes: &[u8]) -> bool
    ensures { result ≡ is_some (digits_in (digit_test hexadecimal) bytes.now) }
{
    let mut rest = bytes;
    loop {
        match rest {
            [] => return false,
            [digit] => return is_digit(hexadecimal, *digit),
            [digit, next @ ..] => {
                if !is_digit(hexadecimal, *digit) {
                    return false;
                }
                rest = behind_underscore(next);
            }
        }
    }
}

fn behind_underscore(bytes: &[u8]) -> &[u8]
    ensures { result.now ≡ behind_underscore bytes.now }
{
    match bytes {
        [b'_', rest @ ..] => rest,
        _ => bytes,
    }
}

#[tactic(auto, using(crate::proofs::Digits::hexadecimal_number, crate::proofs::Digits::decimal_number))]
fn is_natural(bytes: &[u8]) -> bool
    ensures { result ≡ is_some (natural_of bytes.now) }
{
    match bytes.strip_prefix(b"0x") {
        Some(digits) => are_digits(true, digits),
        None => are_digits(false, bytes),
    }
}

fn is_sign(byte: u8) -> bool
    ensures { result ≡ is_sign byte }
{
    byte == b'-' || byte == b'+'
}

/// Whether the bytes are decimal digits and no more, as most numbers are.
fn are_plain_digits(bytes: &[u8]) -> bool
    ensures { result ≡ are_plain_digits bytes.now }
{
    for byte in bytes {
        if !byte.is_ascii_digit() {
            return false;
        }
    }
    !bytes.is_empty()
}

#[tactic(auto, using(crate::proofs::Digits::plain_number, crate::proofs::Digits::signed_number, crate::proofs::Digits::unsigned_number))]
pub fn is_number(bytes: &[u8]) -> bool
    ensures { result ≡ is_some (number_of bytes.now) }
{
    if are_plain_digits(bytes) {
        return true;
    }
    match bytes {
        [first, digits @ ..] => {
            if is_sign(*first) {
                is_natural(digits)
            } else {
                is_natural(bytes)
            }
        }
        [] => false,
    }
}

pub fn is_id(bytes: &[u8]) -> bool
    ensures { result ≡ is_id bytes.now }
{
    matches!(bytes, [b'$', _, ..])
}

pub fn is_offset(bytes: &[u8]) -> bool
    ensures { result ≡ is_some (access_of (codes "offset=") bytes.now) }
{
    match bytes.strip_prefix(b"offset=") {
        Some(number) => is_number(number),
        None => false,
    }
}

pub fn is_align(bytes: &[u8]) -> bool
    ensures { result ≡ is_some (access_of (codes "align=") bytes.now) }
{
    match bytes.strip_prefix(b"align=") {
        Some(number) => is_number(number),
        None => false,
    }
}
