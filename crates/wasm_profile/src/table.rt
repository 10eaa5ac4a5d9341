// The length of the table.

ghost use Rattle.std.specs.Prelude.{◌≡◌, map};
ghost use Rattle.wasm_tree.specs.Views.{import_of, module_of};
ghost use Rattle.wasm_lang_valid.specs.Profile;
ghost use Rattle.wasm_lang_valid.specs.Profile.{imported_entries};

use wasm_lang::ImportKind;
use wasm_tree::{Import, Module};

/// How many entries the table of a module has: the minimum of its limits, and 0 where there is none.
pub fn table_length(module: &Module<'_>) -> u32
    ensures { result ≡ Profile.table_length (module_of «module».now) }
{
    match imported_table(module.imports.as_slice()) {
        Some(entries) => entries,
        None => match module.tables.get(0) {
            Some(limits) => limits.min,
            None => 0,
        },
    }
}

// The entries of a table that is imported.
fn imported_table(imports: &[Import<'_>]) -> Option<u32>
    ensures { result ≡ imported_entries (map import_of imports.now) }
{
    for import in imports {
        if let ImportKind::Table(limits) = import.kind {
            return Some(limits.min);
        }
    }
    None
}

/// The least power of two that is at least 1 and at least this length.
pub fn padded(length: u32) -> u64
    ensures { result ≡ Profile.padded length }
{
    let wanted = u64::from(length);
    let mut power: u64 = 1;
    for _turn in 0..32u32 {
        if wanted <= power {
            return power;
        }
        power *= 2;
    }
    power
}
