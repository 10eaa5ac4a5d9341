//! The text form of WebAssembly: the module that a short text says can be written in the binary format.
#![tactic(auto)]

ghost use Rattle.std.specs.Prelude.{ℕ, ◌<◌, ◌≤◌, List, length};
ghost use Rattle.std.specs.List.{AllByRecursion};
ghost use Rattle.wasm_lang.specs.Modules.{WasmModule};
ghost use Rattle.wasm_lang.specs.Shape.{IsWritable};
ghost use Rattle.wat_lang.specs.Texts.{SaysModule};

/// Some bytes spell the module that a text of at most 16,777,216 bytes says.
pub fn writable()
    ensures { (text : List ℕ) (m : WasmModule) → AllByRecursion (λ b. b < 256) text → length text ≤ 16777216 → SaysModule text m → IsWritable m }
{}
