//! Classes of bytes.

ghost use Rattle.std.specs.Prelude.{◌≡◌, true};
ghost use Rattle.asm_lang_tokens.specs.Bytes.{is_ascii, is_digit, is_hexadecimal_digit, digit_value, begins_name, is_name_byte, is_line_end, is_gap_byte, is_hexadecimal_mark, is_quote, may_be_quoted};
ghost use Rattle.js_tokens.specs.Scan.{begins_with};

pub fn is_ascii(b: u8) -> bool
    ensures { result ≡ is_ascii b }
{
    b < 128
}

pub fn is_digit(b: u8) -> bool
    ensures { result ≡ is_digit b }
{
    b >= b'0' && b <= b'9'
}

pub fn is_hexadecimal_digit(b: u8) -> bool
    ensures { result ≡ is_hexadecimal_digit b }
{
    is_digit(b) || ((b >= b'a' && b <= b'f') || (b >= b'A' && b <= b'F'))
}

/// What a digit of either kind counts.
pub fn digit_value(b: u8) -> u8
    requires { is_hexadecimal_digit b ≡ true }
    ensures { result ≡ digit_value b }
{
    if b >= b'a' {
        b - 87
    } else if b >= b'A' {
        b - 55
    } else {
        b - 48
    }
}

/// A letter, `_` or `$`.
pub fn begins_name(b: u8) -> bool
    ensures { result ≡ begins_name b }
{
    ((b >= b'a' && b <= b'z') || (b >= b'A' && b <= b'Z')) || (b == b'_' || b == b'$')
}

pub fn is_name_byte(b: u8) -> bool
    ensures { result ≡ is_name_byte b }
{
    begins_name(b) || is_digit(b)
}

/// Line feed or carriage return.
pub fn is_line_end(b: u8) -> bool
    ensures { result ≡ is_line_end b }
{
    b == b'\n' || b == b'\r'
}

/// Space, tab, line feed, vertical tab, form feed or carriage return.
pub fn is_gap_byte(b: u8) -> bool
    ensures { result ≡ is_gap_byte b }
{
    b == b' ' || (b >= b'\t' && b <= b'\r')
}

/// `x` or `X`.
pub fn is_hexadecimal_mark(b: u8) -> bool
    ensures { result ≡ is_hexadecimal_mark b }
{
    b == b'x' || b == b'X'
}

pub fn is_quote(b: u8) -> bool
    ensures { result ≡ is_quote b }
{
    b == b'"' || b == b'\''
}

/// What may stand between two of these quotes.
pub fn may_be_quoted(quote: u8, b: u8) -> bool
    ensures { result ≡ may_be_quoted quote b }
{
    is_ascii(b) && b != quote && !(b == b'\\' || is_line_end(b))
}

/// Whether the text begins with this byte.
pub fn begins_with(b: u8, s: &[u8]) -> bool
    ensures { result ≡ begins_with b s.now }
{
    match s {
        [] => false,
        [first, ..] => *first == b,
    }
}
