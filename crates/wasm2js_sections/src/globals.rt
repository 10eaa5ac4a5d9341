//! Variables that hold globals of the source's own.
ghost use Rattle.std.specs.Prelude.{◌≡◌, ◌+◌, ◌<◌, ◌^◌, ◌++◌, ◌∷◌, [], List, map, slice_get, length, IfOk};
ghost use Rattle.session_lang.specs.Imports.{low_word, high_word};
ghost use Rattle.wasm_tree.specs.Views.{instr_of, global_of};
ghost use Rattle.asm_tree.specs.Views.{global_view};
ghost use Rattle.wasm2js_translation.specs.Names as names_of;
ghost use Rattle.wasm2js_translation.specs.Names.{numbered};
ghost use Rattle.wasm2js_translation.specs.Modules as modules;
ghost use Rattle.wasm2js_nodes.specs.Names.{name_view};
ghost use Rattle.wasm2js_sections.specs.Parts.{given_of};

use crate::declaring::{given, word, zero};
use asm_tree::Global_;
use sem_words::Text;
use std::alloc::{AllocError, Global};
use wasm_tree::{GlobalDef, Instr};
use wasm2js_nodes::{Name, Numbered};

/// Adds the globals, which are numbered from `first` on, where the imported ones have these names.
pub fn add_own(
    alloc: Global,
    variables: &mut Vec<Global_>,
    names: &[Text],
    first: u64,
    globals: &[GlobalDef],
) -> Result<(), AllocError>
    requires { first + length globals.now < 2 ^ 64 }
    ensures { IfOk result (λ _. map global_view variables.new.items ≡ map global_view variables.old.items ++ modules.own_variables (map given_of names.now) first (map global_of globals.now)) }
{
    for (i, global) in globals.iter().enumerate() {
        add_global(alloc, variables, names, first + i as u64, global)?;
    }
    Ok(())
}

fn add_global(
    alloc: Global,
    variables: &mut Vec<Global_>,
    names: &[Text],
    number: u64,
    global: &GlobalDef,
) -> Result<(), AllocError>
    ensures { IfOk result (λ _. map global_view variables.new.items ≡ map global_view variables.old.items ++ modules.first_values (map given_of names.now) number (global_of global.now).init) }
{
    add_first_values(alloc, variables, names, number, global.init.as_slice())
}

// A global by its first value: a constant, or an imported global.
fn add_first_values(
    alloc: Global,
    variables: &mut Vec<Global_>,
    names: &[Text],
    number: u64,
    init: &[Instr],
) -> Result<(), AllocError>
    ensures { IfOk result (λ _. map global_view variables.new.items ≡ map global_view variables.old.items ++ modules.first_values (map given_of names.now) number (map instr_of init.now)) }
{
    let low = Name::Counted(Numbered::GlobalLow, number);
    match init {
        [Instr::Const32(value), ..] => {
            variables.push(word(alloc, low, *value)?)?;
            Ok(())
        }
        [Instr::Const64(value), ..] => add_wide(alloc, variables, number, *value),
        [Instr::GlobalGet(global), ..] => {
            variables.push(given_or_zero(alloc, low, names, *global)?)?;
            Ok(())
        }
        _ => Ok(()),
    }
}

// Both words of a constant of 64 bits.
#[tactic(auto, using(std::proofs::lemmas::List::append_assoc))]
fn add_wide(
    alloc: Global,
    variables: &mut Vec<Global_>,
    number: u64,
    value: u64,
) -> Result<(), AllocError>
    ensures { IfOk result (λ _. map global_view variables.new.items ≡ map global_view variables.old.items ++ modules.word_variable (numbered names_of.global_low number) (low_word value) ∷ modules.word_variable (numbered names_of.global_high number) (high_word value) ∷ []) }
{
    let low = (value % (1 << 32)) as u32;
    let high = (value / (1 << 32)) as u32;
    variables.push(word(alloc, Name::Counted(Numbered::GlobalLow, number), low)?)?;
    variables.push(word(alloc, Name::Counted(Numbered::GlobalHigh, number), high)?)?;
    Ok(())
}

// The imported global of a number, or 0 past the last.
fn given_or_zero(
    alloc: Global,
    name: Name,
    names: &[Text],
    global: u32,
) -> Result<Global_, AllocError>
    ensures { IfOk result (λ v. global_view v ≡ modules.given_variable (name_view name) (slice_get (map given_of names.now) global)) }
{
    match names.get(global as usize) {
        None => zero(alloc, name),
        Some(field) => given(alloc, name, field.as_bytes()),
    }
}
