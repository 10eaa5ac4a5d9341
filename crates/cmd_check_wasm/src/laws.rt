//! Laws of verdicts.
ghost use Rattle.std.specs.Prelude.{◌≡◌, ◌≢◌, ℕ, List};
ghost use Rattle.wasm_lang.specs.Modules.{WasmModule};
ghost use Rattle.cmd_check_wasm.specs.declared.fault.CheckFault.{CheckFault};
ghost use Rattle.cmd_check_wasm.specs.declared.fault.CheckFault.TheVariants.{Memory};
ghost use Rattle.wasm_lang_valid.specs.Bytes.{IsValidBytes};
ghost use Rattle.cmd_check_wasm.specs.Verdicts.{IsRefused};

/// Bytes of a valid module are refused for want of memory alone, and any others for one reason at most beside it.
pub fn one_verdict()
    ensures not_both { (bytes : List ℕ) (m : WasmModule) (fault : CheckFault) → IsValidBytes bytes m → IsRefused bytes fault → fault ≡ Memory }
    ensures one { (bytes : List ℕ) (a b : CheckFault) → IsRefused bytes a → IsRefused bytes b → a ≢ Memory → b ≢ Memory → a ≡ b }
{}
