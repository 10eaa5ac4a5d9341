//! The text form of WebAssembly: the module that a text says is shaped, and within the limits of a reader.
#![tactic(auto)]

ghost use Rattle.std.specs.Prelude.{ℕ, List};
ghost use Rattle.wasm_lang.specs.Limits.{IsWithinReader};
ghost use Rattle.wasm_lang.specs.Modules.{WasmModule};
ghost use Rattle.wasm_lang.specs.Shape.{IsShaped};
ghost use Rattle.wat_lang.specs.Texts.{SaysModule};

/// The module that a text says has names in UTF-8, expressions whose instructions have opcodes, and a body for each function,
/// and its counts are within the limits of a reader.
pub fn said_modules()
    ensures shaped { (text : List ℕ) (m : WasmModule) → SaysModule text m → IsShaped m }
    ensures within { (text : List ℕ) (m : WasmModule) → SaysModule text m → IsWithinReader m }
{}
