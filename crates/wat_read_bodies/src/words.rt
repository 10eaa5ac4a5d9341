//! Words of constants.

ghost use Rattle.std.specs.Prelude.{◌≡◌, []};
ghost use Rattle.sem_words.specs.Words.{word_of};
ghost use Rattle.wat_lang.specs.Modules.{word_in};
ghost use Rattle.wat_lang.specs.Rows.{number_rows};
ghost use Rattle.wat_read_tokens.specs.Marks.{marks_of};

use crate::immediates::whole;
use wat_marks::MarkedToken;

/// The word of 32 bits that a number leaves modulo 2^32.
fn word_32(value: i128) -> u32
    ensures { result ≡ word_of 32 value }
{
    value.rem_euclid(1 << 32) as u32
}

/// The word of 64 bits that a number leaves modulo 2^64.
fn word_64(value: i128) -> u64
    ensures { result ≡ word_of 64 value }
{
    value.rem_euclid(1 << 64) as u64
}

/// The word of a constant of 32 bits.
pub fn word_32_in(parts: &[MarkedToken<'_>]) -> u32
    requires { number_rows (marks_of parts.now) ≡ [] }
    ensures { result ≡ word_in 32 (marks_of parts.now) }
{
    word_32(whole(parts))
}

/// The word of a constant of 64 bits.
pub fn word_64_in(parts: &[MarkedToken<'_>]) -> u64
    requires { number_rows (marks_of parts.now) ≡ [] }
    ensures { result ≡ word_in 64 (marks_of parts.now) }
{
    word_64(whole(parts))
}
