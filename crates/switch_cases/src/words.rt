//! The words of values.
ghost use Rattle.std.specs.Prelude.{◌≡◌};
ghost use Rattle.sem_words.specs.Words as words;

/// The word of 32 bits that a whole number leaves.
pub fn word_of(value: i64) -> u32
    ensures { result ≡ words.word_of 32 value }
{
    value.rem_euclid(1 << 32) as u32
}
