//! From numbers to names.

ghost use Rattle.std.specs.Prelude.{◌≡◌, ◌<◌};
ghost use Rattle.asm_short_lang.specs.Sequence as sequence;
ghost use Rattle.asm_short_lang.specs.Sequence.{numbered};

use std::marker::Model;

/// The letters of names in their order.
const LETTERS: [u8; 64] = *b"abcdefghijklmnopqrstuvwxyzABCDEFGHIJKLMNOPQRSTUVWXYZ_$0123456789";

/// So many of them may begin a name.
const FIRST_LETTERS: u64 = 54;

/// No name of a number of 64 bits has more letters.
const MOST_LETTERS: usize = 11;

/// The name of a number. It takes no memory of its own.
#[derive(Drop)]
pub struct Spelling {
    // the letters stand from here on
    start: usize,
    bytes: [u8; MOST_LETTERS],
}

impl Model for Spelling {
    ghost use Rattle.std.specs.Prelude.{◌≤◌, ℕ, List, drop};

    ghost Value = { List ℕ };

    ghost view = { λ s. drop s.start s.bytes };

    ghost invariant = { λ s. s.start ≤ 11 };
}

impl Spelling {
    /// The name's letters.
    pub fn as_bytes(&self) -> &[u8]
        ensures { result.now ≡ self.now }
    {
        &self.bytes[self.start..]
    }
}

fn letter(place: u64) -> u8
    requires { place < 64 }
    ensures { result ≡ sequence.letter place }
{
    LETTERS[place as usize]
}

/// The name that the sequence has at this number.
pub fn spelled(number: u64) -> Spelling
    ensures { result ≡ numbered number }
{
    let mut bytes = [0; MOST_LETTERS];
    let mut start = MOST_LETTERS - 1;
    let mut rest = number;
    while rest >= FIRST_LETTERS {
        let past = rest - FIRST_LETTERS;
        bytes[start] = letter(past % 64);
        start -= 1;
        rest = past / 64;
    }
    bytes[start] = letter(rest);
    Spelling { start, bytes }
}
