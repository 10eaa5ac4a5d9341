// Words of numbers.
ghost use Rattle.std.specs.Prelude.{◌≡◌};
ghost use Rattle.sem_words.specs.Words.{word_of};

/// The word of a whole number.
pub fn low_word(z: i128) -> u32
    ensures { result ≡ word_of 32 z }
{
    z.rem_euclid(1 << 32) as u32
}
