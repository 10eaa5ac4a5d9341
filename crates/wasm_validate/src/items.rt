// The items of the sections whose rules look at one item at a time.

ghost use Rattle.std.specs.Prelude.{◌≡◌, ℕ, true, MatchResult};
ghost use Rattle.wasm_tree.specs.Views.{module_of};
ghost use Rattle.wasm_lang_valid.specs.declared.section.Section.TheVariants as sections;
ghost use Rattle.wasm_lang_valid.specs.ModuleRules;
ghost use Rattle.wasm_validate.specs.Facts.{FactsOf};
ghost use Rattle.wasm_validate.specs.Sections.{is_separate, FineItems, IsItemFault};

use crate::facts::Facts;
use crate::fault::ItemFault;
use crate::rules::{
    element_rule, init_rule, memory_rule, number_rule, segment_rule, start_rule, table_rule,
    type_rule,
};
use wasm_lang_valid::{Rule, Section};
use wasm_tree::Module;

/// Finds the first of so many items that breaks a rule.
pub fn check_items(
    module: &Module<'_>,
    facts: &Facts,
    section: Section,
    count: usize,
) -> Result<(), ItemFault>
    requires facts_of { FactsOf facts.now (module_of «module».now) }
    requires separate { is_separate section ≡ true }
    ensures { MatchResult result (λ _. FineItems (module_of «module».now) section count) (IsItemFault (module_of «module».now) section count) }
{
    for i in 0..count {
        if let Some(rule) = item_rule(module, facts, section, i) {
            return Err(ItemFault::Broken { index: i, rule });
        }
    }
    Ok(())
}

// The rule that an item breaks, if any.
fn item_rule(module: &Module<'_>, facts: &Facts, section: Section, i: usize) -> Option<Rule>
    requires facts_of { FactsOf facts.now (module_of «module».now) }
    requires separate { is_separate section ≡ true }
    ensures { result ≡ ModuleRules.item_rule (module_of «module».now) section i }
{
    match section {
        Section::Types => type_item(module, i),
        Section::Functions => function_item(module, i),
        Section::Tables => table_item(module, facts, i),
        Section::Memories => memory_item(module, facts, i),
        Section::Globals => global_item(module, facts, i),
        Section::Start => start_item(module, facts),
        Section::Elements => element_item(module, facts, i),
        Section::Data => segment_item(module, facts, i),
        Section::Imports | Section::Exports | Section::Code => unreachable!(),
    }
}

fn start_item(module: &Module<'_>, facts: &Facts) -> Option<Rule>
    requires { FactsOf facts.now (module_of «module».now) }
    ensures { (i : ℕ) → result ≡ ModuleRules.item_rule (module_of «module».now) sections.Start i }
{
    match module.start {
        Some(f) => start_rule(module, facts, f),
        None => None,
    }
}

fn type_item(module: &Module<'_>, i: usize) -> Option<Rule>
    ensures { result ≡ ModuleRules.item_rule (module_of «module».now) sections.Types i }
{
    match module.types.get(i) {
        Some(t) => type_rule(t),
        None => None,
    }
}

fn function_item(module: &Module<'_>, i: usize) -> Option<Rule>
    ensures { result ≡ ModuleRules.item_rule (module_of «module».now) sections.Functions i }
{
    match module.functions.get(i) {
        Some(t) => number_rule(module.types.as_slice(), *t),
        None => None,
    }
}

fn table_item(module: &Module<'_>, facts: &Facts, i: usize) -> Option<Rule>
    requires { FactsOf facts.now (module_of «module».now) }
    ensures { result ≡ ModuleRules.item_rule (module_of «module».now) sections.Tables i }
{
    match module.tables.get(i) {
        Some(limits) => table_rule(*limits, facts.imported_table || i > 0),
        None => None,
    }
}

fn memory_item(module: &Module<'_>, facts: &Facts, i: usize) -> Option<Rule>
    requires { FactsOf facts.now (module_of «module».now) }
    ensures { result ≡ ModuleRules.item_rule (module_of «module».now) sections.Memories i }
{
    match module.memories.get(i) {
        Some(limits) => memory_rule(*limits, facts.imported_memory || i > 0),
        None => None,
    }
}

fn global_item(module: &Module<'_>, facts: &Facts, i: usize) -> Option<Rule>
    requires { FactsOf facts.now (module_of «module».now) }
    ensures { result ≡ ModuleRules.item_rule (module_of «module».now) sections.Globals i }
{
    match module.globals.get(i) {
        Some(global) => { init_rule(module, facts, global.kind.kind, global.init.as_slice()) }
        None => None,
    }
}

fn element_item(module: &Module<'_>, facts: &Facts, i: usize) -> Option<Rule>
    requires { FactsOf facts.now (module_of «module».now) }
    ensures { result ≡ ModuleRules.item_rule (module_of «module».now) sections.Elements i }
{
    match module.elements.get(i) {
        Some(element) => element_rule(module, facts, element),
        None => None,
    }
}

fn segment_item(module: &Module<'_>, facts: &Facts, i: usize) -> Option<Rule>
    requires { FactsOf facts.now (module_of «module».now) }
    ensures { result ≡ ModuleRules.item_rule (module_of «module».now) sections.Data i }
{
    match module.segments.get(i) {
        Some(segment) => segment_rule(module, facts, segment),
        None => None,
    }
}
