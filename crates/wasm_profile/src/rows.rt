// The first row that a module meets.

ghost use Rattle.std.specs.Prelude.{◌≡◌, ◌≤◌, ◌^◌, MatchResult, Some, None};
ghost use Rattle.wasm_tree.specs.Views.{module_of};
ghost use Rattle.wasm_validate.specs.Counted.{said};
ghost use Rattle.wasm_profile.specs.Last.{last_rows};
ghost use Rattle.wasm_lang_valid.specs.Measures.{measures_of};
ghost use Rattle.wasm_lang_valid.specs.Profile.{outside_profile, most_levels};
ghost use Rattle.wasm_lang_valid.specs.Runnable;

use crate::imports::{mutable_import, table_import, wide_import};
use crate::memory::{large_memory, memory_bytes};
use crate::segments::{offset_from_import, segment_outside};
use crate::sizes::size_past;
use crate::table::table_length;
use wasm_tree::Module;
use wasm_validate::{Beyond, Measures, Outside, Valid};

/// Whether a module can be translated to asm.js. The first row that it meets is the refusal. It takes no memory.
pub fn profile(valid: &Valid<'_>) -> Result<(), Outside>
    ensures { MatchResult result (λ _. outside_profile valid.now ≡ None) (λ outside. outside_profile valid.now ≡ Some outside) }
{
    let module = valid.module();
    match first_row(module, valid.measures()) {
        Some(outside) => Err(outside),
        None => Ok(()),
    }
}

fn first_row(module: &Module<'_>, measures: Measures) -> Option<Outside>
    requires exactly { said measures ≡ measures_of (module_of «module».now) }
    requires few { measures.call_types ≤ 2 ^ 32 }
    ensures { result ≡ outside_profile (module_of «module».now) }
{
    let imports = module.imports.as_slice();
    let others = row_or(
        Beyond::WideImport,
        wide_import(module),
        row_or(
            Beyond::OffsetFromImport,
            offset_from_import(module),
            last_row(module, measures),
        ),
    );
    row_or(
        Beyond::ImportedTable,
        table_import(imports),
        row_or(
            Beyond::MutableImport,
            mutable_import(imports),
            row_or(Beyond::MixedImport, measures.mixed, others),
        ),
    )
}

// The first row from that of segments on.
fn last_row(module: &Module<'_>, measures: Measures) -> Option<Outside>
    requires exactly { said measures ≡ measures_of (module_of «module».now) }
    requires few { measures.call_types ≤ 2 ^ 32 }
    ensures { result ≡ last_rows (module_of «module».now) }
{
    let outside = segment_outside(module, table_length(module), memory_bytes(module));
    let counts = row_or(
        Beyond::Size,
        size_past(module, measures.slots, measures.call_types),
        row_or(Beyond::WideMulDiv, measures.mul_div, None),
    );
    row_or(
        Beyond::SegmentOutside,
        outside,
        row_or(
            Beyond::MemoryLarge,
            large_memory(module),
            row_or(Beyond::Levels, deep_levels(measures.levels), counts),
        ),
    )
}

// Levels that are too many.
fn deep_levels(levels: usize) -> Option<usize>
    ensures { result ≡ Runnable.above most_levels (Some levels) }
{
    if levels > 900 { Some(levels) } else { None }
}

fn row_or(row: Beyond, value: Option<usize>, other: Option<Outside>) -> Option<Outside>
    ensures { result ≡ Runnable.row_or row value other }
{
    match value {
        None => other,
        Some(value) => Some(Outside { row, value }),
    }
}
