//! asm.js: tokens or a text are a module within the limit on the height, or have one fault, of one kind and at one place.
#![tactic(auto)]

pub mod refusal_laws;

ghost use Rattle.std.specs.Prelude.{◌≡◌, ◌≤◌, ℕ, List};
ghost use Rattle.asm_lang.specs.Lexemes.{Lexeme};
ghost use Rattle.asm_lang.specs.Trees.{ModuleTree};
ghost use Rattle.asm_lang.specs.Grammar.{IsModule};
ghost use Rattle.asm_lang.specs.Modules.{Module};
ghost use Rattle.asm_lang.specs.Heights.{module_height, height_limit};
ghost use Rattle.asm_lang.specs.TreeHeights.{whole_height};
ghost use Rattle.asm_lang.specs.Kinds.{Kind, IsFault};
ghost use Rattle.asm_lang.specs.Texts as texts;
ghost use Rattle.asm_lang.specs.Texts.{IsTextOf, Fault};
ghost use Rattle.asm_laws_fault.specs.Outcomes.{Outcome};
ghost use Rattle.asm_laws_fault.specs.TextOutcomes.{TextOutcome};

/// Tokens are a module within a limit on the height or have a fault, and never both. Two faults of the same tokens are of one
/// kind, and stand at one place.
pub fn one_fault()
    ensures some { (limit : ℕ) (xs : List Lexeme) → Outcome limit xs }
    ensures not_both { (limit : ℕ) (xs : List Lexeme) (m : ModuleTree) → IsModule m xs → whole_height m ≤ limit → (a : Kind) (i : ℕ) → ¬ IsFault limit xs a i }
    ensures one_kind { (limit : ℕ) (xs : List Lexeme) (a b : Kind) (i j : ℕ) → IsFault limit xs a i → IsFault limit xs b j → a ≡ b }
    ensures one_place { (limit : ℕ) (xs : List Lexeme) (a b : Kind) (i j : ℕ) → IsFault limit xs a i → IsFault limit xs b j → i ≡ j }
{}

/// A text says a module within the limit on the height or has a fault, and never both. Two faults of a text are the same, with
/// the same offset.
pub fn one_fault_of_a_text()
    ensures some { (text : List ℕ) → TextOutcome text }
    ensures not_both { (text : List ℕ) (m : Module) → IsTextOf text m → module_height m ≤ height_limit → (f : Fault) (at : ℕ) → ¬ texts.IsFault text f at }
    ensures one_kind { (text : List ℕ) (f g : Fault) (i j : ℕ) → texts.IsFault text f i → texts.IsFault text g j → f ≡ g }
    ensures one_place { (text : List ℕ) (f g : Fault) (i j : ℕ) → texts.IsFault text f i → texts.IsFault text g j → i ≡ j }
{}
