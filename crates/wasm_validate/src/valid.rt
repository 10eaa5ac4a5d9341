// Validation of a module, section by section.

ghost use Rattle.std.specs.Prelude.{◌≡◌, ◌≢◌, ◌+◌, ◌<◌, true, length, IfOk, MatchResult};
ghost use Rattle.wasm_lang.specs.Shape.{IsShaped};
ghost use Rattle.wasm_tree.specs.Views.{module_of};
ghost use Rattle.wasm_lang_valid.specs.Validity;
ghost use Rattle.wasm_lang_valid.specs.Validity.{id, IsFineSection, IsValidModule};
ghost use Rattle.wasm_validate.specs.Counted.{CountsOf};
ghost use Rattle.wasm_validate.specs.Facts.{FactsOf};
ghost use Rattle.wasm_validate.specs.Sections.{is_separate};
ghost use Rattle.wasm_validate.specs.Refusals;
ghost use Rattle.wasm_validate.specs.Refusals.{IsInvalid, IsSectionFault};

use crate::code_section::check_bodies;
use crate::counts::Counts;
use crate::exports::check_exports;
use crate::facts::Facts;
use crate::fault::{CodeFault, Invalid, ItemFault};
use crate::imports::check_imports;
use crate::items::check_items;
use std::alloc::Global;
use wasm_lang_valid::Section;
use wasm_tree::Module;

/// Checks the sections in their order, and counts of the bodies.
pub fn check_module(alloc: Global, module: &Module<'_>, facts: &Facts) -> Result<Counts, Invalid>
    requires facts_of { FactsOf facts.now (module_of «module».now) }
    requires shaped { IsShaped (module_of «module».now) }
    ensures exactly { MatchResult result (λ _. IsValidModule (module_of «module».now)) (IsInvalid (module_of «module».now)) }
    ensures counts { IfOk result (λ counts. CountsOf counts (module_of «module».now) (length (module_of «module».now).bodies)) }
{
    for k in 0..9 {
        check_section(alloc, module, facts, section_at(k))?;
    }
    let counts = match check_bodies(alloc, module, facts) {
        Ok(counts) => counts,
        Err(fault) => return Err(in_code(fault)),
    };
    check_section(alloc, module, facts, Section::Data)?;
    Ok(counts)
}

// The section of the id that is one more, of those before the code.
fn section_at(k: usize) -> Section
    requires { k < 9 }
    ensures { id result ≡ k + 1 }
{
    match k {
        0 => Section::Types,
        1 => Section::Imports,
        2 => Section::Functions,
        3 => Section::Tables,
        4 => Section::Memories,
        5 => Section::Globals,
        6 => Section::Exports,
        7 => Section::Start,
        _ => Section::Elements,
    }
}

// One section, which isn't that of the code.
fn check_section(
    alloc: Global,
    module: &Module<'_>,
    facts: &Facts,
    section: Section,
) -> Result<(), Invalid>
    requires facts_of { FactsOf facts.now (module_of «module».now) }
    requires not_code { id section ≢ 10 }
    ensures { MatchResult result (λ _. IsFineSection (module_of «module».now) section) (IsSectionFault (module_of «module».now) section) }
{
    match section {
        Section::Types => separate(module, facts, section, module.types.len()),
        Section::Imports => match check_imports(module) {
            Ok(()) => Ok(()),
            Err(fault) => Err(in_section(section, fault)),
        },
        Section::Functions => separate(module, facts, section, module.functions.len()),
        Section::Tables => separate(module, facts, section, module.tables.len()),
        Section::Memories => separate(module, facts, section, module.memories.len()),
        Section::Globals => separate(module, facts, section, module.globals.len()),
        Section::Exports => match check_exports(alloc, module, facts) {
            Ok(()) => Ok(()),
            Err(fault) => Err(in_section(section, fault)),
        },
        Section::Start => separate(module, facts, section, start_count(module)),
        Section::Elements => separate(module, facts, section, module.elements.len()),
        Section::Code => unreachable!(),
        Section::Data => separate(module, facts, section, module.segments.len()),
    }
}

// How many start functions are named.
fn start_count(module: &Module<'_>) -> usize
    ensures { result ≡ Validity.start_count (module_of «module».now).start }
{
    match module.start {
        None => 0,
        Some(_) => 1,
    }
}

// A section whose items are looked at one at a time.
fn separate(
    module: &Module<'_>,
    facts: &Facts,
    section: Section,
    count: usize,
) -> Result<(), Invalid>
    requires facts_of { FactsOf facts.now (module_of «module».now) }
    requires separate { is_separate section ≡ true }
    requires count { count ≡ Validity.items (module_of «module».now) section }
    ensures { MatchResult result (λ _. IsFineSection (module_of «module».now) section) (IsSectionFault (module_of «module».now) section) }
{
    match check_items(module, facts, section, count) {
        Ok(()) => Ok(()),
        Err(fault) => Err(in_section(section, fault)),
    }
}

// The fault of an item of this section.
fn in_section(section: Section, fault: ItemFault) -> Invalid
    ensures { result ≡ Refusals.in_section section fault }
{
    match fault {
        ItemFault::Broken { index, rule } => Invalid::Rule {
            rule,
            section,
            index,
            instruction: 0,
        },
        ItemFault::Memory => Invalid::Memory,
    }
}

// The fault of a body.
fn in_code(fault: CodeFault) -> Invalid
    ensures { result ≡ Refusals.in_code fault }
{
    match fault {
        CodeFault::Broken {
            index,
            rule,
            instruction,
        } => Invalid::Rule {
            rule,
            section: Section::Code,
            index,
            instruction,
        },
        CodeFault::Memory => Invalid::Memory,
    }
}
