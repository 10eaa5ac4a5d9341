//! Operators of asm.js on values, and instructions of WebAssembly on the words of these values.
#![tactic(auto)]

ghost use Rattle.asm2wasm_laws_words.specs.Laws.{WordsOfResults, WordsOfNegations, WordsOfComplements, WordsOfProducts, WordsOfLeadingZeros, WordsOfComparisons, WordsOfConditions, WordsOfNots, SignedQuotients, UnsignedQuotients, SignedRemainders, UnsignedRemainders, FormSaysType, AlikeByOne};

/// Operators whose code is one instruction, and those of one operand.
pub fn instructions()
    ensures two { WordsOfResults }
    ensures negation { WordsOfNegations }
    ensures complement { WordsOfComplements }
    ensures product { WordsOfProducts }
    ensures zeros { WordsOfLeadingZeros }
{}

/// Comparisons of two signed operands, and of two unsigned ones.
pub fn comparisons()
    ensures { WordsOfComparisons }
{}

/// An int holds where its word isn't 0.
pub fn conditions()
    ensures holds { WordsOfConditions }
    ensures turned { WordsOfNots }
{}

/// Whether an expression is unsigned is seen from its form.
pub fn signedness()
    ensures form { FormSaysType }
    ensures both { AlikeByOne }
{}

/// Quotients and remainders, under guards that let no divisor through that would trap.
pub fn quotients()
    ensures signed { SignedQuotients }
    ensures unsigned { UnsignedQuotients }
    ensures signed_rest { SignedRemainders }
    ensures unsigned_rest { UnsignedRemainders }
{}
