//! Classes of bytes.

ghost use Rattle.std.specs.Prelude.{◌≡◌};
ghost use Rattle.wat_lang.specs.Tokens as spec;
ghost use Rattle.wat_tokens.specs.Fronts.{is_plain, value_or_more};

pub fn is_digit(b: u8) -> bool
    ensures { result ≡ spec.is_digit b }
{
    b'0' <= b && b <= b'9'
}

pub fn is_hexadecimal_digit(b: u8) -> bool
    ensures { result ≡ spec.is_hexadecimal_digit b }
{
    is_digit(b) || ((b'a' <= b && b <= b'f') || (b'A' <= b && b <= b'F'))
}

/// What a digit of either kind counts.
pub fn digit_value(b: u8) -> u8
    ensures { result ≡ spec.digit_value b }
{
    if b'a' <= b {
        b - 87
    } else if b'A' <= b {
        b - 55
    } else {
        b.saturating_sub(48)
    }
}

/// For each byte its value as a hexadecimal digit, or 16 where it is none.
static VALUES: [u8; 256] = [
    16, 16, 16, 16, 16, 16, 16, 16, 16, 16, 16, 16, 16, 16, 16, 16, 16, 16, 16, 16, 16, 16, 16, 16,
    16, 16, 16, 16, 16, 16, 16, 16, 16, 16, 16, 16, 16, 16, 16, 16, 16, 16, 16, 16, 16, 16, 16, 16,
    0, 1, 2, 3, 4, 5, 6, 7, 8, 9, 16, 16, 16, 16, 16, 16, 16, 10, 11, 12, 13, 14, 15, 16, 16, 16,
    16, 16, 16, 16, 16, 16, 16, 16, 16, 16, 16, 16, 16, 16, 16, 16, 16, 16, 16, 16, 16, 16, 16, 10,
    11, 12, 13, 14, 15, 16, 16, 16, 16, 16, 16, 16, 16, 16, 16, 16, 16, 16, 16, 16, 16, 16, 16, 16,
    16, 16, 16, 16, 16, 16, 16, 16, 16, 16, 16, 16, 16, 16, 16, 16, 16, 16, 16, 16, 16, 16, 16, 16,
    16, 16, 16, 16, 16, 16, 16, 16, 16, 16, 16, 16, 16, 16, 16, 16, 16, 16, 16, 16, 16, 16, 16, 16,
    16, 16, 16, 16, 16, 16, 16, 16, 16, 16, 16, 16, 16, 16, 16, 16, 16, 16, 16, 16, 16, 16, 16, 16,
    16, 16, 16, 16, 16, 16, 16, 16, 16, 16, 16, 16, 16, 16, 16, 16, 16, 16, 16, 16, 16, 16, 16, 16,
    16, 16, 16, 16, 16, 16, 16, 16, 16, 16, 16, 16, 16, 16, 16, 16, 16, 16, 16, 16, 16, 16, 16, 16,
    16, 16, 16, 16, 16, 16, 16, 16, 16, 16, 16, 16, 16, 16,
];

/// What a hexadecimal digit counts, or 16 where it is none.
pub fn value_or_more(b: u8) -> u8
    ensures { result ≡ value_or_more b }
{
    VALUES[b as usize]
}

/// For each byte a digit, whose low two bits are the flags below.
static CLASSES: [u8; 256] = *b"\
    00000000000000000000000000000000\
    23033333223323333333333333323333\
    33333333333333333333333333321233\
    33333333333333333333333333323230\
    22222222222222222222222222222222\
    22222222222222222222222222222222\
    22222222222222222222222222222222\
    22222222222222222222222222222222";

/// A flag of the bytes from `!` to `~`, but for quotes, commas, semicolons, parentheses, brackets and braces.
const IN_ATOMS: u8 = 1;

/// A flag of the bytes that stand in a string for themselves.
const PLAIN: u8 = 2;

pub fn is_atom_byte(b: u8) -> bool
    ensures { result ≡ spec.is_atom_byte b }
{
    CLASSES[b as usize] & IN_ATOMS != 0
}

/// Whether it is a byte that stands in a string for itself.
pub fn is_plain(b: u8) -> bool
    ensures { result ≡ is_plain b }
{
    CLASSES[b as usize] & PLAIN != 0
}

/// Space, tab, line feed or carriage return.
pub fn is_blank(b: u8) -> bool
    ensures { result ≡ spec.is_blank b }
{
    b == b' ' || (b == b'\t' || (b == b'\n' || b == b'\r'))
}

/// Whether the text begins with this byte.
pub fn begins_with(b: u8, s: &[u8]) -> bool
    ensures { result ≡ spec.begins_with b s.now }
{
    match s {
        [] => false,
        [first, ..] => *first == b,
    }
}
