//! Variables of the module.
ghost use Rattle.std.specs.Prelude.{◌≡◌, ◌<◌, true, List, map, IfOk};
ghost use Rattle.sem_words.specs.Lists.{list_items, text_bytes};
ghost use Rattle.wasm_tree.specs.Views.{instr_of, global_of};
ghost use Rattle.asm_tree.specs.Views.{module_view, global_view, init_view};
ghost use Rattle.sem_words.specs.Words.{word_of};
ghost use Rattle.asm2wasm_sections.specs.Few.{FewGlobals};
ghost use Rattle.asm_lang_valid.specs.Refusal.{foreign_globals};
ghost use Rattle.asm2wasm_translation.specs.Numbers.{slot_of, is_variable, int_variables};
ghost use Rattle.asm2wasm_translation.specs.Modules.{or_zero, first_value, global_for};

use asm_tree::{Global_, Init};
use asm2wasm_numbers::ModuleNumbers;
use sem_words::{List, Text};
use std::alloc::{AllocError, Global};
use wasm_tree::{GlobalDef, GlobalType, Instr, ValType};

/// The variables, each with its first value.
pub fn globals(
    alloc: Global,
    declared: &[Global_],
    numbers: &ModuleNumbers<'_>,
) -> Result<List<GlobalDef>, AllocError>
    requires few { FewGlobals (module_view numbers.now) }
    ensures { IfOk result (λ globals. map global_of (list_items globals) ≡ map (global_for (module_view numbers.now)) (int_variables (map global_view declared.now))) }
{
    let mut globals = Vec::new(alloc);
    for global in declared {
        if is_variable(&global.init) {
            globals.push(global_for(alloc, global, numbers)?)?;
        }
    }
    Ok(List::from_vec(globals))
}

fn is_variable(init: &Init) -> bool
    ensures { result ≡ is_variable (init_view init.now) }
{
    matches!(init, Init::Number(_) | Init::ForeignInt(_, _))
}

fn global_for(
    alloc: Global,
    global: &Global_,
    numbers: &ModuleNumbers<'_>,
) -> Result<GlobalDef, AllocError>
    requires few { FewGlobals (module_view numbers.now) }
    ensures { IfOk result (λ g. global_of g ≡ global_for (module_view numbers.now) (global_view global.now)) }
{
    let mut init = Vec::new(alloc);
    init.push(first_value(&global.init, numbers))?;
    init.push(Instr::End)?;
    Ok(GlobalDef {
        kind: GlobalType {
            kind: ValType::I32,
            mutable: true,
        },
        init: List::from_vec(init),
    })
}

// A literal, or the foreign variable of its name.
fn first_value(init: &Init, numbers: &ModuleNumbers<'_>) -> Instr
    requires few { FewGlobals (module_view numbers.now) }
    ensures { instr_of result ≡ first_value (module_view numbers.now) (init_view init.now) }
{
    match init {
        Init::Number(value) => Instr::Const32(low_word(*value)),
        Init::ForeignInt(_, member) => Instr::GlobalGet(given_number(member, numbers)),
        Init::Decimal(_)
        | Init::ForeignDouble(_, _)
        | Init::Member(_, _)
        | Init::Math(_, _)
        | Init::View(_, _, _) => Instr::Const32(0),
    }
}

// The number of a foreign variable.
fn given_number(member: &Text, numbers: &ModuleNumbers<'_>) -> u32
    requires few { FewGlobals (module_view numbers.now) }
    ensures { result ≡ or_zero (slot_of (foreign_globals (module_view numbers.now)) (text_bytes member.now)) }
{
    match numbers.given_global(member) {
        None => 0,
        Some(number) => number as u32,
    }
}

// A whole number modulo 2^32.
fn low_word(value: i64) -> u32
    ensures { result ≡ word_of 32 value }
{
    value.rem_euclid(1 << 32) as u32
}
