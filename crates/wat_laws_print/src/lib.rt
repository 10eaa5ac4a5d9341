//! The text form of WebAssembly: a canonical text is made of the tokens of its module's pieces.
#![tactic(auto)]

ghost use Rattle.std.specs.Prelude.{◌≡◌, ℕ, ◌<◌, ◌^◌, List, ◌++◌, map, false, Some, pos, decimal};
ghost use Rattle.std.specs.Fmt.{signed_decimal};
ghost use Rattle.sem_words.specs.Words.{word_of, signed_of};
ghost use Rattle.wat_lang.specs.Numbers.{number_of, access_of};
ghost use Rattle.wat_lang.specs.Tokens.{Token, HasTokens};
ghost use Rattle.wat_lang.specs.Printing.{Piece, joined, module_pieces, canonical};
ghost use Rattle.wasm_lang.specs.Modules.{WasmModule};
ghost use Rattle.wat_laws_print.specs.Pieces.{AreFit, classes};
ghost use Rattle.wat_laws_print.specs.Words.{IsOfWords};

/// Pieces that are laid out are read as their tokens, one by one and in order; and so is the canonical text of a module.
pub fn pieces_are_read()
    ensures pieces { (ps : List Piece) → AreFit ps → (ts : List Token) × HasTokens (joined false ps) ts × (map (λ t. t.class) ts ≡ classes ps) }
    ensures canonical { (m : WasmModule) → IsOfWords m → (ts : List Token) × HasTokens (canonical m) ts × (map (λ t. t.class) ts ≡ classes (module_pieces m)) }
{}

/// Numbers, as they are written, are read as what they are: alone, as a word of 32 or of 64 bits, and behind a key.
pub fn numbers_are_read()
    ensures natural { (n : ℕ) → n < 2 ^ 64 → number_of (decimal n) ≡ Some (pos n) }
    ensures word_32 { (w : ℕ) → w < 2 ^ 32 → (number_of (signed_decimal (signed_of 32 w)) ≡ Some (signed_of 32 w)) × (word_of 32 (signed_of 32 w) ≡ w) }
    ensures word_64 { (w : ℕ) → w < 2 ^ 64 → (number_of (signed_decimal (signed_of 64 w)) ≡ Some (signed_of 64 w)) × (word_of 64 (signed_of 64 w) ≡ w) }
    ensures keyed { (key : List ℕ) (n : ℕ) → n < 2 ^ 64 → access_of key (key ++ decimal n) ≡ Some (pos n) }
{}
