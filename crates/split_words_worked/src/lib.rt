//! Statements on words of 64 bits that are worked out: a sum that forgets its carry is refused.
#![tactic(auto)]

ghost use Rattle.std.specs.Prelude.{[]};
ghost use Rattle.sem_words.specs.declared.word.Bin.TheVariants.{Add};
ghost use Rattle.wasm2js_lang.specs.SplitWords.{ComputesBinary};
ghost use Rattle.split_words_worked.specs.LostCarry.{first, second, sum_by_halves};

/// A sum that forgets what the low words carry isn't one of words of 64 bits.
pub fn a_sum_without_carry()
    ensures { ComputesBinary [] sum_by_halves Add first second first → ⊥ }
{}
