//! What follows for printed texts.

ghost use Rattle.std.specs.Prelude.{◌≡◌, ℕ, List};
ghost use Rattle.asm_lang.specs.Heights.{IsWellFormed};
ghost use Rattle.asm_lang.specs.Modules.{Module};
ghost use Rattle.asm_lang.specs.Printing.{canonical_text};
ghost use Rattle.asm_lang.specs.Texts.{SaysModule};

/// The canonical text of a well-formed module says that module, and no other one.
pub fn printed_texts_are_read()
    ensures again { (m : Module) → IsWellFormed m → (places : List ℕ) × SaysModule (canonical_text m) m places }
    ensures only { (m n : Module) (places : List ℕ) → IsWellFormed m → SaysModule (canonical_text m) n places → n ≡ m }
{}
