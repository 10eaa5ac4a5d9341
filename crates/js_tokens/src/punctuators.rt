//! Punctuators.

ghost use Rattle.std.specs.Prelude.{◌≡◌, ◌≤◌, ◌<◌, ◌+◌, true, false, length, take};
ghost use Rattle.js_tokens.specs.Scan.{is_punct, is_punct1, takes_equals, doubles, is_punct2, is_punct3, is_punct4};

/// Whether these bytes are a punctuator.
fn is_punct(s: &[u8]) -> bool
    ensures { result ≡ is_punct s.now }
{
    match s {
        [] => false,
        [a] => is_punct1(*a),
        [a, b] => is_punct2(*a, *b),
        [a, b, c] => is_punct3(*a, *b, *c),
        [a, b, c, d] => is_punct4(*a, *b, *c, *d),
        _ => false,
    }
}

/// `!`, `%`, `&`, `(` to `/`, `:` to `?`, `[`, `]`, `^`, `{` to `~`.
fn is_punct1(a: u8) -> bool
    ensures { result ≡ is_punct1 a }
{
    (a == b'!' || (a >= b'%' && a <= b'&'))
        || ((a >= b'(' && a <= b'/') || (a >= b':' && a <= b'?'))
        || ((a == b'[' || (a >= b']' && a <= b'^')) || (a >= b'{' && a <= b'~'))
}

/// Whether it makes another punctuator with an `=` after it.
fn takes_equals(a: u8) -> bool
    ensures { result ≡ takes_equals a }
{
    ((a == b'!' || (a >= b'%' && a <= b'&')) || (a >= b'*' && a <= b'+'))
        || ((a == b'-' || a == b'/') || ((a >= b'<' && a <= b'>') || (a == b'^' || a == b'|')))
}

/// Whether it makes another punctuator with itself after it.
fn doubles(a: u8) -> bool
    ensures { result ≡ doubles a }
{
    (a == b'&' || a == b'+') || ((a == b'-' || a == b'<') || (a == b'>' || a == b'|'))
}

fn is_punct2(a: u8, b: u8) -> bool
    ensures { result ≡ is_punct2 a b }
{
    (b == b'=' && takes_equals(a)) || ((a == b && doubles(a)) || (a == b'=' && b == b'>'))
}

/// `===`, `!==`, `<<=`, `>>=`, `>>>`.
fn is_punct3(a: u8, b: u8, c: u8) -> bool
    ensures { result ≡ is_punct3 a b c }
{
    (c == b'=' && ((b == b'=' && (a == b'=' || a == b'!')) || (a == b && (a == b'<' || a == b'>'))))
        || ((a == b'>' && b == b'>') && c == b'>')
}

/// `>>>=`.
fn is_punct4(a: u8, b: u8, c: u8, d: u8) -> bool
    ensures { result ≡ is_punct4 a b c d }
{
    (a == b'>' && b == b'>') && (c == b'>' && d == b'=')
}

/// How many bytes the longest punctuator at the front has, or 0.
pub fn punct_len(s: &[u8]) -> usize
    ensures within { result ≤ length s.now }
    ensures here { 0 < result → is_punct (take result s.now) ≡ true }
    ensures no_longer { result < length s.now → is_punct (take (result + 1) s.now) ≡ false }
{
    let mut n = 0;
    while n < s.len() && is_punct(&s[..n + 1]) {
        n += 1;
    }
    n
}
