//! From asm.js to WebAssembly: what may be written for a module, said without any translation.
#![tactic(auto)]

ghost use Rattle.std.specs.Prelude.{◌≡◌, ◌≤◌, ◌*◌, ◌+◌, ◌<◌, ℕ, true, List, Some, slice_get};
ghost use Rattle.heap_lang.specs.Heap.{IsHeapLength};
ghost use Rattle.asm_lang.specs.Modules.{Table, Module};
ghost use Rattle.asm_lang_valid.specs.Refusal.{function_number};
ghost use Rattle.wasm_lang_exec.specs.Store.{page};
ghost use Rattle.asm2wasm_lang.specs.Heaps.{is_heap_length, pages_for};
ghost use Rattle.asm2wasm_lang.specs.Tables.{entries_of, bases_of};

/// A heap's length is one of a heap, and the pages for it hold it, at most 4,096 of them.
pub fn heap_lengths()
    ensures of_a_heap { (size : ℕ) → is_heap_length size ≡ true → IsHeapLength size }
    ensures hold { (size : ℕ) → size ≤ pages_for size * page }
    ensures no_more { (size : ℕ) → pages_for size * page < size + page }
    ensures few { (size : ℕ) → is_heap_length size ≡ true → pages_for size ≤ 4096 }
    ensures least { pages_for 4096 ≡ 1 }
    ensures most { pages_for 268435456 ≡ 4096 }
{}

/// The entry of a table's member stands its number after the table's base.
pub fn tables_end_to_end()
    ensures { (m : Module) (n i base : ℕ) (t : Table) (name : List ℕ) → slice_get m.tables n ≡ Some t → slice_get (bases_of m) n ≡ Some base → slice_get t.members i ≡ Some name
        → slice_get (entries_of m) (base + i) ≡ Some (function_number m.functions name) }
{}
