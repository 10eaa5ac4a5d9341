//! The reading function against the binary format, as contracts of a function that does nothing.
ghost use Rattle.std.specs.Prelude.{◌≡◌, ℕ, ◌<◌, ◌≤◌, List, length, All, Ok, Err, MatchResult};
ghost use Rattle.wasm_lang.specs.declared.fault.Fault.{Fault};
ghost use Rattle.wasm_lang.specs.Grammar.{IsModuleBytes};
ghost use Rattle.wasm_lang.specs.Limits.{IsWithinReader};
ghost use Rattle.wasm_lang.specs.Modules.{WasmModule};
ghost use Rattle.wasm_lang.specs.ReadingModule.{read_module};
ghost use Rattle.wasm_lang.specs.Shape.{IsShaped};

/// A module within the reader's limits is read from each of its spellings, and what is read is spelled so. Bytes have at
/// most one module: one within the limits, or there is a first field that can't be read, and they have none within them.
/// Its place is one of the bytes, or their end. A module that bytes spell is shaped: names are UTF-8, instructions have
/// opcodes, bodies are expressions, and there are as many as functions.
pub fn module_laws()
    ensures reads_what_is_spelled { (bytes : List ℕ) (m : WasmModule) → IsModuleBytes bytes m → IsWithinReader m → read_module bytes ≡ Ok m }
    ensures spelled_as_read { (bytes : List ℕ) (m : WasmModule) → All (λ b. b < 256) bytes → read_module bytes ≡ Ok m → IsModuleBytes bytes m × IsWithinReader m }
    ensures one_module { (bytes : List ℕ) (m n : WasmModule) → IsModuleBytes bytes m → IsModuleBytes bytes n → m ≡ n }
    ensures module_or_fault { (bytes : List ℕ) → All (λ b. b < 256) bytes → MatchResult (read_module bytes) (λ m. IsModuleBytes bytes m × IsWithinReader m × ((n : WasmModule) → IsModuleBytes bytes n → m ≡ n)) (λ f. (n : WasmModule) → IsModuleBytes bytes n → ¬ IsWithinReader n) }
    ensures place_within { (bytes : List ℕ) (f : Fault) → read_module bytes ≡ Err f → f.at ≤ length bytes }
    ensures spelled_shaped { (bytes : List ℕ) (m : WasmModule) → IsModuleBytes bytes m → IsShaped m }
{}
