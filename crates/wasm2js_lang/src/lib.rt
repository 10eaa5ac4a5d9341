//! From WebAssembly to asm.js: what may be written for a module, said without any translation.
#![tactic(auto)]

pub mod parts;

ghost use Rattle.std.specs.Prelude.{◌≡◌, ◌≤◌, ◌*◌, ◌∷◌, [], ℕ, true, codes};
ghost use Rattle.wasm_lang.specs.Modules.{WasmModule};
ghost use Rattle.wasm_lang_exec.specs.Store.{page};
ghost use Rattle.asm_lang.specs.Modules.{Module};
ghost use Rattle.asm2wasm_lang.specs.Heaps.{is_heap_length};
ghost use Rattle.wasm2js_lang.specs.Heaps.{heap_for};
ghost use Rattle.wasm2js_lang.specs.Tables.{masked};
ghost use Rattle.wasm2js_lang.specs.Calling.{shapes_of, entries_asked, functions_asked, IsCalledAs};
ghost use Rattle.wasm2js_lang.specs.Allowed.{script_for, IsAllowed, TrapsAreCalls};
ghost use Rattle.wasm2js_lang.specs.Laws.{CalledTypesHaveTables, CellsAreOfEntries, CellsArePadded, EntriesAreTheTable, HighWordsBeginAsZero, EmptyHelpersAreRefused, IdleHelpersAreRefused};
ghost use Rattle.wasm2js_lang.specs.Worked.{small, small_tables, small_shapes, small_entries, small_script, small_split, small_text};

/// The heap of so many pages is the shortest that holds them.
pub fn heap_of_pages()
    ensures of_a_heap { (pages : ℕ) → pages ≤ 4096 → is_heap_length (heap_for pages) ≡ true }
    ensures holds { (pages : ℕ) → pages * page ≤ heap_for pages }
    ensures no_shorter { (pages size : ℕ) → is_heap_length size ≡ true → pages * page ≤ size → heap_for pages ≤ size }
    ensures of_none { heap_for 0 ≡ 4096 }
    ensures of_one { heap_for 1 ≡ 65536 }
    ensures of_few { heap_for 17 ≡ 2097152 }
    ensures of_many { heap_for 129 ≡ 16777216 }
    ensures of_more { heap_for 257 ≡ 33554432 }
    ensures of_most { heap_for 4096 ≡ 268435456 }
{}

/// A call finds its table, and an index the cell of the entry there, or an empty one past the table.
pub fn masked_tables()
    ensures found { CalledTypesHaveTables }
    ensures cells { CellsAreOfEntries }
    ensures padded { CellsArePadded }
    ensures entries { EntriesAreTheTable }
{}

/// The traps of what is allowed are calls of the trap import.
pub fn traps_of_the_allowed()
    ensures { (w : WasmModule) (a : Module) → IsAllowed w a → TrapsAreCalls w a }
{}

/// A small module: its tables, how its exports are called, and a script that goes over.
pub fn small_module()
    ensures tables { masked small ≡ small_tables }
    ensures shapes { shapes_of small ≡ small_shapes }
    ensures entries { entries_asked small ≡ small_entries }
    ensures functions { functions_asked small ≡ codes "p" ∷ [] }
    ensures script { script_for small small_script ≡ small_split }
    ensures called { IsCalledAs small (small_text 0) }
    ensures otherwise { IsCalledAs small (small_text 7) }
{}

/// A text whose `$hi` gives 7 before any result of 64 bits isn't allowed, though it is called as asked.
pub fn early_high_word()
    ensures { HighWordsBeginAsZero }
{}

/// A text whose rotation of 64 bits has no body, or gives 0, doesn't have the helpers.
pub fn idle_rotation()
    ensures empty { EmptyHelpersAreRefused }
    ensures idle { IdleHelpersAreRefused }
{}
