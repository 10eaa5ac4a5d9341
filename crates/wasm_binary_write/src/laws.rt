//! The shortest spelling against the binary format, as contracts of a function that does nothing.
ghost use Rattle.std.specs.Prelude.{◌≡◌, ℕ, ◌≤◌, List, length, Ok};
ghost use Rattle.wasm_lang.specs.Grammar.{IsModuleBytes};
ghost use Rattle.wasm_lang.specs.Limits.{IsWithinReader};
ghost use Rattle.wasm_lang.specs.Modules.{WasmModule};
ghost use Rattle.wasm_lang.specs.ReadingModule.{read_module};
ghost use Rattle.wasm_lang.specs.Shape.{IsWritable};
ghost use Rattle.wasm_binary_write.specs.Spelling.{spelling};

use wasm_lang::module_laws;

/// The spelling of a module that any bytes spell is one of the binary format's, and none is shorter. Within
/// the reader's limits the module is read from it.
pub fn spelling_laws()
    ensures spells { (m : WasmModule) → IsWritable m → IsModuleBytes (spelling m) m }
    ensures shortest { (m : WasmModule) (bytes : List ℕ) → IsModuleBytes bytes m → length (spelling m) ≤ length bytes }
    ensures reads_back { (m : WasmModule) → IsWritable m → IsWithinReader m → read_module (spelling m) ≡ Ok m }
{
    module_laws();
}
