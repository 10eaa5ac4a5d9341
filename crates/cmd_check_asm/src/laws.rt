//! Each text is accepted or refused, and that in one way.

ghost use Rattle.std.specs.Prelude.{◌≡◌, ℕ, List};
ghost use Rattle.asm_lang.specs.Modules.{Module};
ghost use Rattle.cmd_check_asm.specs.declared.fault.CheckFault.{CheckFault};
ghost use Rattle.asm_lang_valid.specs.Texts.{IsAcceptedText};
ghost use Rattle.cmd_check_asm.specs.Verdicts.{HasRefusal, Verdict};

/// A text is accepted or refused, and never both. It is accepted as one module, or refused for one reason at one offset.
pub fn one_verdict_of_a_text()
    ensures some { (text : List ℕ) → Verdict text }
    ensures not_both { (text : List ℕ) (m : Module) (e : CheckFault) → IsAcceptedText text m → ¬ HasRefusal text e }
    ensures one_module { (text : List ℕ) (m n : Module) → IsAcceptedText text m → IsAcceptedText text n → m ≡ n }
    ensures one_refusal { (text : List ℕ) (e f : CheckFault) → HasRefusal text e → HasRefusal text f → e ≡ f }
{}
