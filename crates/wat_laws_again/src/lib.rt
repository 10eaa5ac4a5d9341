//! The text form of WebAssembly: a canonical text is a text of the grammar, and its marks say the module that it was written from.
#![tactic(auto)]

ghost use Rattle.std.specs.Prelude.{◌≡◌, ℕ, List, map};
ghost use Rattle.wasm_lang.specs.Limits.{IsWithinReader};
ghost use Rattle.wasm_lang.specs.Modules.{WasmModule};
ghost use Rattle.wasm_lang.specs.Shape.{IsShaped};
ghost use Rattle.wasm_lang_valid.specs.Validity.{IsValidModule};
ghost use Rattle.wat_lang.specs.Grammar.{Marked};
ghost use Rattle.wat_lang.specs.Modules.{module_of};
ghost use Rattle.wat_lang.specs.Printing.{module_pieces, canonical};
ghost use Rattle.wat_lang.specs.Texts.{IsMarked, SaysModule};
ghost use Rattle.wat_laws_print.specs.Pieces.{classes};
ghost use Rattle.wat_laws_print.specs.Words.{IsOfWords};
ghost use Rattle.wat_laws_again.specs.Signs.{Sign, placed, signs_of};
ghost use Rattle.wat_laws_again.specs.Fitting.{HasConstants, HasOneOfEach, HasTypes};

/// The tokens of a canonical text are in the integer profile and are of the grammar, with these marks.
pub fn canonical_texts()
    ensures pieces { (m : WasmModule) → map (λ (s : Sign). s.1) (signs_of m) ≡ classes (module_pieces m) }
    ensures marked { (m : WasmModule) → IsShaped m → IsOfWords m → HasConstants m → (places : List ℕ) × IsMarked (canonical m) (placed places (signs_of m)) }
{}

/// The marks of a canonical text say its module, wherever its tokens stand.
pub fn said_again()
    ensures { (m : WasmModule) → IsShaped m → IsOfWords m → HasConstants m → HasOneOfEach m → (places : List ℕ) → module_of (placed places (signs_of m)) ≡ m }
{}

/// First values and offsets of a valid module are constants, its alignments are small, its segments are of its one table and its
/// one memory, and its functions have types.
pub fn valid_modules()
    ensures constants { (m : WasmModule) → IsValidModule m → HasConstants m }
    ensures one_of_each { (m : WasmModule) → IsValidModule m → HasOneOfEach m }
    ensures types { (m : WasmModule) → IsValidModule m → HasTypes m }
{}

/// A valid module within the limits, whose numbers are words, is said by its canonical text.
pub fn read_again()
    ensures { (m : WasmModule) → IsShaped m → IsWithinReader m → IsOfWords m → IsValidModule m → SaysModule (canonical m) m }
{}
