//! From WebAssembly to asm.js: which state of WebAssembly a place of asm.js stands for, and what straight code does without asm.js.
#![tactic(auto)]

pub mod delay_laws;
pub mod knowing_laws;
pub mod pace_laws;

ghost use Rattle.std.specs.Prelude.{◌≡◌, ◌∷◌, [], false};
ghost use Rattle.wasm2js_laws_places.specs.Straight.{stops};
ghost use Rattle.wasm2js_laws_places.specs.Worked.{seen_words, added_up, loaded_at, a_heap, a_local, first_operand, second_operand, local_to_operand, changed_and_read, changed_later, changed_in_an_arm, byte_at_a_constant, one_more, one_more_and};
ghost use Rattle.wasm2js_translation.specs.Pairs.{literal, simples};
ghost use Rattle.wasm2js_translation.specs.Words.{put, byte, read, simply, either};

/// The carry of the low words goes into the high one.
pub fn a_sum_with_carry()
    ensures { seen_words (added_up 4294967295 5 3 6) ≡ 2 ∷ 12 ∷ 3 ∷ 6 ∷ [] }
{}

/// Four bytes at an address that is a multiple of four are read where they lie in the memory; at another
/// one a helper reads them, and past the memory there is a trap.
pub fn a_load_that_is_guarded()
    ensures together { seen_words (loaded_at 4) ≡ 134678021 ∷ 0 ∷ 0 ∷ 0 ∷ [] }
    ensures apart { seen_words (loaded_at 3) ≡ 77 ∷ 0 ∷ 0 ∷ 0 ∷ [] }
    ensures past { loaded_at 5 ≡ stops 2 a_heap }
{}

/// A local's word that waits for an operand is written before the local changes, also where that is in one
/// of two arms; and a byte is read at a constant that waits, with nothing written before.
pub fn words_that_wait()
    ensures changed { changed_later ≡ simples (local_to_operand ∷ changed_and_read) }
    ensures in_an_arm { changed_in_an_arm ≡ simply local_to_operand ∷ either (read second_operand) changed_and_read [] ∷ [] }
    ensures constant { byte_at_a_constant ≡ simply (put first_operand (byte false (literal 4))) ∷ [] }
{}

/// A word that is put into a local next goes there at once, and the local is the operand's word then. Where
/// something else comes next, it is written before that.
pub fn words_put_at_once()
    ensures at_once { one_more_and (put a_local (read second_operand) ∷ []) ≡ simples (put a_local one_more ∷ put second_operand (read a_local) ∷ []) }
    ensures not_next { one_more_and (put a_local (literal 5) ∷ []) ≡ simples (put second_operand one_more ∷ put a_local (literal 5) ∷ []) }
{}
