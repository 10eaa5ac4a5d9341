//! The lexical grammar of asm.js: which bytes are tokens and gaps, and what a text is made of.
#![tactic(auto)]

ghost use Rattle.std.specs.Prelude.{◌≡◌, ℕ, List};
ghost use Rattle.std.specs.List.{AllByRecursion};
ghost use Rattle.asm_lang_tokens.specs.Text.{Reading, IsReading, IsAt, HasForm, IsJoined, OfTokens};

/// Each text has a reading, and no second one.
pub fn readings_of_a_text()
    ensures some { (source : List ℕ) → (r : Reading) × IsReading source r }
    ensures one { (source : List ℕ) (r s : Reading)
        → IsReading source r → IsReading source s → r ≡ s }
{}

/// What a reading says of its tokens: each text stands at its place and has the form of its kind, and gaps and texts joined are
/// the text.
pub fn tokens_of_a_reading()
    ensures places { (source : List ℕ) (r : Reading)
        → IsReading source r → OfTokens (AllByRecursion (IsAt source)) r }
    ensures forms { (source : List ℕ) (r : Reading)
        → IsReading source r → OfTokens (AllByRecursion HasForm) r }
    ensures joined { (source : List ℕ) (r : Reading)
        → IsReading source r → OfTokens (IsJoined source) r }
{}
