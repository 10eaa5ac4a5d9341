//! The numbers of a script.

ghost use Rattle.std.specs.Prelude.{◌≡◌};
ghost use Rattle.sem_words.specs.Words.{word_of};
ghost use Rattle.script_lang.specs.Numbers as spec;
ghost use Rattle.script_read.specs.Views.{kept_below, digits_below, with_digit};

// The number with one more digit, where it is below 2 ^ 64.
fn with_digit(value: u64, digit: u8) -> Option<u64>
    ensures { result ≡ with_digit value digit }
{
    if !digit.is_ascii_digit() {
        return None;
    }
    value.checked_mul(10)?.checked_add((digit - b'0') as u64)
}

// The number that decimal digits write, where it is below 2 ^ 64.
fn digits(word: &[u8]) -> Option<u64>
    ensures { result ≡ digits_below word.now }
{
    let mut value: u64 = 0;
    for digit in word {
        value = with_digit(value, *digit)?;
    }
    Some(value)
}

fn plain(word: &[u8]) -> Option<u64>
    ensures { result ≡ kept_below (spec.plain_value word.now) }
{
    match word {
        [] | [b'0', ..] => None,
        _ => digits(word),
    }
}

fn natural(word: &[u8]) -> Option<u64>
    ensures { result ≡ kept_below (spec.natural_of word.now) }
{
    match word {
        [b'0'] => Some(0),
        _ => plain(word),
    }
}

const MOST_BELOW_ZERO: u64 = 1 << 63;

/// `0`, or an optional `-` and digits that don't begin with 0, in [-2^63, 2^64).
pub fn number(word: &[u8]) -> Option<i128>
    ensures { result ≡ spec.number_of word.now }
{
    match word {
        [b'-', digits @ ..] => match plain(digits) {
            Some(n) if n <= MOST_BELOW_ZERO => Some(-(n as i128)),
            _ => None,
        },
        _ => match natural(word) {
            Some(n) => Some(n as i128),
            None => None,
        },
    }
}

const PLACES: i128 = 1 << 28;

/// A place in the heap: a number in [0, 2^28).
pub fn place(word: &[u8]) -> Option<u64>
    ensures { result ≡ spec.place_of word.now }
{
    match number(word) {
        Some(n) if 0 <= n && n < PLACES => Some(n as u64),
        _ => None,
    }
}

/// The 64-bit word that a number leaves modulo 2^64.
pub fn word(number: i128) -> u64
    ensures { result ≡ word_of 64 number }
{
    number.rem_euclid(1 << 64) as u64
}
