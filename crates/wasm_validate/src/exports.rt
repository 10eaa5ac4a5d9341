// The items of the export section.

ghost use Rattle.std.specs.Prelude.{length, MatchResult};
ghost use Rattle.wasm_tree.specs.Views.{module_of};
ghost use Rattle.wasm_lang_valid.specs.declared.section.Section.TheVariants as sections;
ghost use Rattle.wasm_lang_valid.specs.ModuleRules;
ghost use Rattle.wasm_validate.specs.Facts.{FactsOf};
ghost use Rattle.wasm_validate.specs.Sections.{FineItems, IsItemFault};

use crate::facts::Facts;
use crate::fault::ItemFault;
use crate::rules::{exported_rule, first_of};
use indexmap::IndexSet;
use key_hashes::{KeyHashes, Seed};
use std::alloc::Global;
use wasm_lang_valid::Rule;
use wasm_tree::{Module, WasmExport};

/// Finds the first export that breaks a rule.
pub fn check_exports(alloc: Global, module: &Module<'_>, facts: &Facts) -> Result<(), ItemFault>
    requires { FactsOf facts.now (module_of «module».now) }
    ensures { MatchResult result (λ _. FineItems (module_of «module».now) sections.Exports (length (module_of «module».now).exports)) (IsItemFault (module_of «module».now) sections.Exports (length (module_of «module».now).exports)) }
{
    let exports = module.exports.as_slice();
    let hashes = hashes_of(exports);
    let Ok(mut names) = IndexSet::<&[u8], KeyHashes>::with_capacity_and_hasher(
        alloc,
        exports.len(),
        hashes,
    ) else {
        return Err(ItemFault::Memory);
    };
    for (i, export) in exports.iter().enumerate() {
        let is_new = match names.insert(export.name.as_bytes()) {
            Ok(is_new) => is_new,
            Err(_) => return Err(ItemFault::Memory),
        };
        let named = first_of(is_new, Rule::RepeatedName, None);
        match exported_rule(facts, export.kind, named) {
            Some(rule) => return Err(ItemFault::Broken { index: i, rule }),
            None => {}
        }
    }
    Ok(())
}

// Hashers for the names of exports.
fn hashes_of(exports: &[WasmExport<'_>]) -> KeyHashes {
    let mut seed = Seed::new();
    for export in exports {
        seed.add(export.name.as_bytes());
    }
    seed.hashes()
}
