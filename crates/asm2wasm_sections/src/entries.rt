//! The table, and what stands in it.
ghost use Rattle.std.specs.Prelude.{◌≡◌, ◌<◌, ◌+◌, ◌^◌, map, All, IfOk};
ghost use Rattle.sem_words.specs.Lists.{list_items};
ghost use Rattle.wasm_tree.specs.Views.{element_of};
ghost use Rattle.asm_tree.specs.Views.{module_view};
ghost use Rattle.asm_lang_valid.specs.LimitRows.{foreign_calls};
ghost use Rattle.asm2wasm_translation.specs.Modules.{table_for, elements_for};
ghost use Rattle.asm2wasm_sections.specs.Few.{FewFunctions, FewEntries};
ghost use Rattle.asm2wasm_sections.specs.Parts.{element_for};

use asm2wasm_numbers::ModuleNumbers;
use sem_words::List;
use std::alloc::{AllocError, Global};
use wasm_tree::{Element, Instr, Limits};

/// The one table, with all entries, where there are tables.
pub fn tables(alloc: Global, numbers: &ModuleNumbers<'_>) -> Result<List<Limits>, AllocError>
    requires few { FewEntries (module_view numbers.now) }
    ensures { IfOk result (λ tables. list_items tables ≡ table_for (module_view numbers.now) (module_view numbers.now).tables) }
{
    let mut tables = Vec::new(alloc);
    if !numbers.checked().module().tables.is_empty() {
        let count = numbers.plan().entries.len() as u32;
        tables.push(Limits {
            min: count,
            max: Some(count),
        })?;
    }
    Ok(List::from_vec(tables))
}

/// Its entries, by the numbers of their functions.
pub fn elements(alloc: Global, numbers: &ModuleNumbers<'_>) -> Result<List<Element>, AllocError>
    requires few { FewFunctions (module_view numbers.now) }
    ensures { IfOk result (λ elements. map element_of (list_items elements) ≡ elements_for (module_view numbers.now) (module_view numbers.now).tables) }
{
    let mut elements = Vec::new(alloc);
    if !numbers.checked().module().tables.is_empty() {
        elements.push(element(alloc, numbers)?)?;
    }
    Ok(List::from_vec(elements))
}

fn element(alloc: Global, numbers: &ModuleNumbers<'_>) -> Result<Element, AllocError>
    requires few { FewFunctions (module_view numbers.now) }
    ensures { IfOk result (λ element. element_of element ≡ element_for (module_view numbers.now)) }
{
    let mut offset = Vec::new(alloc);
    offset.push(Instr::Const32(0))?;
    offset.push(Instr::End)?;
    let imported = numbers.checked().foreign_calls().len();
    Ok(Element {
        table: 0,
        offset: List::from_vec(offset),
        functions: entry_numbers(alloc, imported, numbers.plan().entries.as_slice())?,
    })
}

// The numbers of functions, counted after the imported ones.
fn entry_numbers(alloc: Global, imported: usize, entries: &[usize]) -> Result<List<u32>, AllocError>
    requires { All (λ entry. imported + entry < 2 ^ 32) entries.now }
    ensures { IfOk result (λ numbers. list_items numbers ≡ map (λ entry. imported + entry) entries.now) }
{
    let mut numbers = Vec::new(alloc);
    for entry in entries {
        numbers.push((imported + *entry) as u32)?;
    }
    Ok(List::from_vec(numbers))
}
