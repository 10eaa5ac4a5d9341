//! The numbers that are printed.
ghost use Rattle.std.specs.Prelude.{◌++◌, codes, decimal};
ghost use Rattle.std.specs.Io.{StartsWith};
ghost use Rattle.wasm_lang.specs.declared.fault.Row.{Row};
ghost use Rattle.wasm_lang.specs.Rows as binary;
ghost use Rattle.wasm_lang_valid.specs.declared.profile.Beyond.{Beyond};
ghost use Rattle.wasm_lang_valid.specs.Rows as beyond;
ghost use Rattle.wasm_link_lang.specs.declared.rows.LinkRow.{LinkRow};
ghost use Rattle.wasm_link_lang.specs.Rows as links;
ghost use Rattle.wat_lang.specs.declared.fault.Row.{Row as WatRow};
ghost use Rattle.wat_lang.specs.Rows as wat;
ghost use Rattle.bridge_lang.specs.declared.asm_rows.AsmRow.{AsmRow};
ghost use Rattle.bridge_lang.specs.AsmRows as asm;
ghost use Rattle.bridge_lang.specs.WasmRows.{binary_row_name, wat_row_name, beyond_name, link_row_name};

/// The name of a row begins with a letter, the row's number and a space.
pub fn numbered_rows()
    ensures asm { (row : AsmRow) → StartsWith (asm.row_name row) (codes "A" ++ decimal (asm.row_number row) ++ codes " ") }
    ensures binary { (row : Row) → StartsWith (binary_row_name row) (codes "B" ++ decimal (binary.row_number row) ++ codes " ") }
    ensures wat { (row : WatRow) → StartsWith (wat_row_name row) (codes "C" ++ decimal (wat.row_number row) ++ codes " ") }
    ensures beyond { (row : Beyond) → StartsWith (beyond_name row) (codes "B" ++ decimal (beyond.beyond_number row) ++ codes " ") }
    ensures linked { (row : LinkRow) → StartsWith (link_row_name row) (codes "L" ++ decimal (links.row_number row) ++ codes " ") }
{}
