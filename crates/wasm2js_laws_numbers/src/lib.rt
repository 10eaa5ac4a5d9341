//! Operators on words of 64 bits as operators on their low and high words, which are words of 32 bits.
#![tactic(auto)]

ghost use Rattle.wasm2js_laws_numbers.specs.Laws.{SumsCarry, DifferencesBorrow, BitsAreApart, ShiftsLeft, ShiftsRight, ShiftsRightSigned, RotationsLeft, RotationsRight, NarrowRotationsLeft, NarrowRotationsRight, LeadingZeros, TrailingZeros, SetBits, NarrowTrailingZeros, HighWordsDecide, NarrowExtensions, WideExtensions};
ghost use Rattle.std.specs.Prelude.{bit_and, bit_or, bit_xor};

/// Sums and differences, with what the low words carry and borrow.
pub fn sums()
    ensures sum { SumsCarry }
    ensures difference { DifferencesBorrow }
{}

/// Operators that go bit by bit.
pub fn bits()
    ensures conjunction { BitsAreApart bit_and }
    ensures disjunction { BitsAreApart bit_or }
    ensures exclusion { BitsAreApart bit_xor }
{}

/// Shifts, whose counts are below 32 or not.
pub fn shifts()
    ensures left { ShiftsLeft }
    ensures right { ShiftsRight }
    ensures right_signed { ShiftsRightSigned }
{}

/// Rotations, also of one word.
pub fn rotations()
    ensures left { RotationsLeft }
    ensures right { RotationsRight }
    ensures narrow_left { NarrowRotationsLeft }
    ensures narrow_right { NarrowRotationsRight }
{}

/// Counts of bits; trailing zeros of one word by the bits below the lowest that is set.
pub fn counts()
    ensures leading { LeadingZeros }
    ensures trailing { TrailingZeros }
    ensures set { SetBits }
    ensures narrow_trailing { NarrowTrailingZeros }
{}

/// Comparisons.
pub fn comparisons()
    ensures { HighWordsDecide }
{}

/// Extension with the sign, of a word to itself and to two words.
pub fn extensions()
    ensures narrow { NarrowExtensions }
    ensures wide { WideExtensions }
{}
