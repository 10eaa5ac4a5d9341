//! From WebAssembly to asm.js: which functions, tables and imports a module has that stands for another one, said without any
//! translation.

ghost use Rattle.std.specs.Prelude.{◌≡◌, ◌∷◌, [], true, false, map, codes};
ghost use Rattle.std.specs.List.{range_with_len};
ghost use Rattle.wasm_lang.specs.declared.types.ValType.TheVariants.{I32};
ghost use Rattle.wasm2js_lang.specs.Tables.{a_function, empty, other};
ghost use Rattle.wasm2js_lang.specs.Calling.{entry};
ghost use Rattle.wasm2js_lang.specs.Worked.{type, small, rotating, moving};
ghost use Rattle.wasm2js_lang.specs.Parts.Functions.{helpers_asked};
ghost use Rattle.wasm2js_lang.specs.Parts.Tables.{table_types, found_at};

/// A small module: which of its types have a table, and what calls find there.
pub fn small_module()
    ensures types { table_types small ≡ 0 ∷ [] }
    ensures found { map (found_at small (type (I32 ∷ []) (I32 ∷ []))) (range_with_len 0 6) ≡ a_function 1 ∷ a_function 1 ∷ other ∷ empty ∷ empty ∷ empty ∷ [] }
{}

/// Which helpers stand beside the functions of a module: none, all on words of 64 bits for one operator on them, and just those that are
/// asked for by a remainder, a load of four bytes, one of two, and a copy.
pub fn helpers()
    ensures none { helpers_asked small ≡ [] }
    ensures wide { helpers_asked rotating ≡ entry (codes "$shl") 3 true ∷ entry (codes "$shrs") 3 true ∷ entry (codes "$shru") 3 true ∷ entry (codes "$rotl") 3 true ∷ entry (codes "$clz") 2 true ∷ entry (codes "$ctz") 2 true ∷ entry (codes "$pop") 1 true ∷ [] }
    ensures some { helpers_asked moving ≡ entry (codes "$remu") 2 true ∷ entry (codes "$load32") 1 true ∷ entry (codes "$copy") 3 false ∷ [] }
{}
