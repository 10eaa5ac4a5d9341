//! Laws of verdicts.
ghost use Rattle.std.specs.Prelude.{◌≡◌, ℕ, List};
ghost use Rattle.wasm_lang.specs.Modules.{WasmModule};
ghost use Rattle.bridge_lang.specs.Reason.{Reason};
ghost use Rattle.bridge_lang.specs.WatVerdicts.{IsValidWat, IsWatRefusal};

/// A text that says a valid module isn't refused, and any other is for one reason.
pub fn one_verdict()
    ensures not_both { (text : List ℕ) (m : WasmModule) (reason : Reason) → IsValidWat text m → IsWatRefusal text reason → ⊥ }
    ensures one { (text : List ℕ) (a b : Reason) → IsWatRefusal text a → IsWatRefusal text b → a ≡ b }
{}
