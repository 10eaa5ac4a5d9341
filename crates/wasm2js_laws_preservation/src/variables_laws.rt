//! From WebAssembly to asm.js: instructions that read and write locals and globals, choose, and tell the size of the memory.

ghost use Rattle.std.specs.Prelude.{ℕ};
ghost use Rattle.wasm_lang.specs.Instructions.{local_get, local_set, local_tee, global_get, global_set, select, memory_size};
ghost use Rattle.wasm2js_laws_preservation.specs.InstructionsPlain.{Always};

/// Locals.
pub fn locals()
    ensures got { (x : ℕ) → Always (local_get x) }
    ensures put { (x : ℕ) → Always (local_set x) }
    ensures put_too { (x : ℕ) → Always (local_tee x) }
{}

/// Globals.
pub fn globals()
    ensures got { (x : ℕ) → Always (global_get x) }
    ensures put { (x : ℕ) → Always (global_set x) }
{}

/// A choice between two operands, and the size of the memory.
pub fn others()
    ensures chosen { Always select }
    ensures size { Always memory_size }
{}
