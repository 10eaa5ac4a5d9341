//! Exports.
ghost use Rattle.std.specs.Prelude.{◌≡◌, ◌<◌, ◌+◌, ◌^◌, map, All, IfOk};
ghost use Rattle.sem_words.specs.Lists.{list_items};
ghost use Rattle.wasm_tree.specs.Views.{export_of};
ghost use Rattle.asm_tree.specs.Views.{module_view};
ghost use Rattle.asm_validate_facts.specs.Numbers.{export_said};
ghost use Rattle.asm2wasm_lang.specs.Calling.{exports_given};
ghost use Rattle.asm2wasm_sections.specs.Few.{FewFunctions};
ghost use Rattle.asm2wasm_sections.specs.Parts.{export_given};

use asm_validate::ExportOf;
use asm2wasm_numbers::ModuleNumbers;
use sem_words::List;
use std::alloc::{AllocError, Global};
use wasm_tree::{Bytes, ExportKind, WasmExport};

/// The exported functions, counted after the foreign ones.
pub fn exports<'a>(
    alloc: Global,
    numbers: &ModuleNumbers<'a>,
) -> Result<List<WasmExport<'a>>, AllocError>
    requires few { FewFunctions (module_view numbers.now) }
    ensures { IfOk result (λ exports. map export_of (list_items exports) ≡ exports_given (module_view numbers.now)) }
{
    let checked = numbers.checked();
    given(alloc, checked.foreign_calls().len(), checked.exports())
}

// The exports of functions that are counted after so many imported ones.
fn given<'a>(
    alloc: Global,
    imported: usize,
    exports: &'a [ExportOf],
) -> Result<List<WasmExport<'a>>, AllocError>
    requires few { All (λ e. imported + e.function < 2 ^ 32) exports.now }
    ensures { IfOk result (λ said. map export_of (list_items said) ≡ map (export_given imported) (map export_said exports.now)) }
{
    let mut said = Vec::new(alloc);
    for export in exports {
        said.push(export_for(imported, export))?;
    }
    Ok(List::from_vec(said))
}

fn export_for(imported: usize, export: &ExportOf) -> WasmExport<'_>
    requires few { imported + export.now.function < 2 ^ 32 }
    ensures { export_of result ≡ export_given imported (export_said export.now) }
{
    WasmExport {
        name: Bytes::Lent(export.key.as_bytes()),
        kind: ExportKind::Func((imported + export.function as usize) as u32),
    }
}
