// Names that both modules export functions under.

ghost use Rattle.std.specs.Prelude.{◌≡◌, map};
ghost use Rattle.wasm_tree.specs.Views.{export_of};
ghost use Rattle.wasm_link_lang.specs.Refusal as rows;

use crate::exported::{Exporting, function_of};
use wasm_tree::WasmExport;

/// The place of the first export of a function under a name under which the other module exports one.
pub fn taken(other: &Exporting<'_>, exports: &[WasmExport<'_>]) -> Option<usize>
    ensures { result ≡ rows.taken other.now.exports 0 (map export_of exports.now) }
{
    for (i, export) in exports.iter().enumerate() {
        if is_taken(other, export) {
            return Some(i);
        }
    }
    None
}

fn is_taken(other: &Exporting<'_>, export: &WasmExport<'_>) -> bool
    ensures { result ≡ rows.is_taken other.now.exports (export_of export.now) }
{
    function_of(export.kind).is_some() && other.function(export.name.as_bytes()).is_some()
}
