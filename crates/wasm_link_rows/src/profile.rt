// What keeps a module from being linked by itself.

ghost use Rattle.std.specs.Prelude.{◌≡◌};
ghost use Rattle.wasm_tree.specs.Views.{module_of};
ghost use Rattle.wasm_lang_valid.specs.Runnable;
ghost use Rattle.wasm_link_lang.specs.Refusal as plain;

use wasm_lang_valid::{Beyond, Outside, beyond_number};
use wasm_profile::{
    large_memory, memory_bytes, mutable_import, offset_from_import, segment_outside, table_import,
    table_length,
};
use wasm_tree::Module;

/// The number of the first row of the profile that a module meets, of those that matter here.
pub fn profile_row(module: &Module<'_>) -> Option<usize>
    ensures { result ≡ plain.profile_row (module_of «module».now) }
{
    match outside_of(module) {
        None => None,
        Some(outside) => Some(beyond_number(outside.row) as usize),
    }
}

fn outside_of(module: &Module<'_>) -> Option<Outside>
    ensures { result ≡ plain.outside_of (module_of «module».now) }
{
    let imports = module.imports.as_slice();
    let segments = row_or(
        Beyond::OffsetFromImport,
        offset_from_import(module),
        row_or(
            Beyond::SegmentOutside,
            segment_outside(module, table_length(module), memory_bytes(module)),
            row_or(Beyond::MemoryLarge, large_memory(module), None),
        ),
    );
    row_or(
        Beyond::ImportedTable,
        table_import(imports),
        row_or(Beyond::MutableImport, mutable_import(imports), segments),
    )
}

fn row_or(row: Beyond, value: Option<usize>, other: Option<Outside>) -> Option<Outside>
    ensures { result ≡ Runnable.row_or row value other }
{
    match value {
        None => other,
        Some(value) => Some(Outside { row, value }),
    }
}
