// The items of the import section.

ghost use Rattle.std.specs.Prelude.{◌≡◌, ◌||◌, List, length, MatchResult};
ghost use Rattle.wasm_lang.specs.Modules.{Imported};
ghost use Rattle.wasm_tree.specs.Views.{module_of};
ghost use Rattle.wasm_lang_valid.specs.declared.section.Section.TheVariants as sections;
ghost use Rattle.wasm_lang_valid.specs.ModuleRules;
ghost use Rattle.wasm_validate.specs.Sections.{FineItems, IsItemFault};

use crate::fault::ItemFault;
use crate::rules::{memory_rule, number_rule, table_rule};
use wasm_lang::ImportKind;
use wasm_lang_valid::Rule;
use wasm_tree::Module;

/// Finds the first import that breaks a rule.
pub fn check_imports(module: &Module<'_>) -> Result<(), ItemFault>
    ensures { MatchResult result (λ _. FineItems (module_of «module».now) sections.Imports (length (module_of «module».now).imports)) (IsItemFault (module_of «module».now) sections.Imports (length (module_of «module».now).imports)) }
{
    let mut table = false;
    let mut memory = false;
    for (i, import) in module.imports.as_slice().iter().enumerate() {
        match import_rule(module, import.kind, table, memory) {
            Some(rule) => return Err(ItemFault::Broken { index: i, rule }),
            None => {}
        }
        table = has_table(table, import.kind);
        memory = has_memory(memory, import.kind);
    }
    Ok(())
}

// The rule that an import breaks, after imports among which is a table, and a memory, or not.
fn import_rule(module: &Module<'_>, kind: ImportKind, table: bool, memory: bool) -> Option<Rule>
    ensures { (before : List Imported) → table ≡ ModuleRules.imports_table before → memory ≡ ModuleRules.imports_memory before → result ≡ ModuleRules.import_rule (module_of «module».now) before kind }
{
    match kind {
        ImportKind::Func(t) => number_rule(module.types.as_slice(), t),
        ImportKind::Table(limits) => table_rule(limits, table),
        ImportKind::Memory(limits) => memory_rule(limits, memory),
        ImportKind::Global(_) => None,
    }
}

// Whether there is a table, where there was one before or not, and this is imported.
fn has_table(before: bool, kind: ImportKind) -> bool
    ensures { result ≡ before || ModuleRules.is_table kind }
{
    before || matches!(kind, ImportKind::Table(_))
}

// .. and a memory.
fn has_memory(before: bool, kind: ImportKind) -> bool
    ensures { result ≡ before || ModuleRules.is_memory kind }
{
    before || matches!(kind, ImportKind::Memory(_))
}
