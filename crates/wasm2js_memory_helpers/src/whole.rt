//! The helpers of a module.
ghost use Rattle.std.specs.Prelude.{◌≡◌, ◌++◌, ◌∷◌, [], List, map, IfOk};
ghost use Rattle.sem_words.specs.Lists.{list_items};
ghost use Rattle.asm_tree.specs.Views.{function_view};
ghost use Rattle.wasm_lang.specs.Modules.{WasmModule};
ghost use Rattle.wasm2js_translation.specs.Helpers as pieces;
ghost use Rattle.wasm2js_translation.specs.Modules.{helpers};
ghost use Rattle.wasm2js_needs.specs.Needs.{needs_for};
ghost use Rattle.wasm2js_helpers.specs.Choices.{choice, chosen, word_choices, division_choices};
ghost use Rattle.wasm2js_memory_helpers.specs.Choices.{access_choices, run_choices, data_choices, memory_choices, helpers_with, memory_of};

use crate::access::access_helpers;
use crate::copying::copy_function;
use crate::filling::fill_function;
use crate::putting::{put_function, zero_function};
use asm_tree::Function;
use sem_words::List;
use std::alloc::{AllocError, Global};
use wasm2js_helpers::short::add;
use wasm2js_helpers::{division_helpers, wide_helpers};
use wasm2js_needs::Needs;

fn add_copy(
    alloc: Global,
    bytes: u32,
    asked: bool,
    functions: &mut List<Function>,
) -> Result<(), AllocError>
    ensures { IfOk result (λ _. map function_view (list_items functions.new) ≡ map function_view (list_items functions.old) ++ chosen (choice asked (pieces.copy_function bytes) ∷ [])) }
{
    if asked {
        add(functions, copy_function(alloc, bytes)?)
    } else {
        Ok(())
    }
}

fn add_fill(
    alloc: Global,
    bytes: u32,
    asked: bool,
    functions: &mut List<Function>,
) -> Result<(), AllocError>
    ensures { IfOk result (λ _. map function_view (list_items functions.new) ≡ map function_view (list_items functions.old) ++ chosen (choice asked (pieces.fill_function bytes) ∷ [])) }
{
    if asked {
        add(functions, fill_function(alloc, bytes)?)
    } else {
        Ok(())
    }
}

// Copies and fills of a memory of so many bytes.
#[tactic(auto, using(wasm2js_helpers::proofs::Chosen::one_more))]
fn run_helpers(
    alloc: Global,
    bytes: u32,
    needs: &Needs,
    functions: &mut List<Function>,
) -> Result<(), AllocError>
    ensures { IfOk result (λ _. map function_view (list_items functions.new) ≡ map function_view (list_items functions.old) ++ chosen (run_choices needs.now bytes)) }
{
    add_copy(alloc, bytes, needs.copy, functions)?;
    add_fill(alloc, bytes, needs.fill, functions)
}

// What writes words of long segments.
fn data_helpers(
    alloc: Global,
    needs: &Needs,
    functions: &mut List<Function>,
) -> Result<(), AllocError>
    ensures { IfOk result (λ _. map function_view (list_items functions.new) ≡ map function_view (list_items functions.old) ++ chosen (data_choices needs.now)) }
{
    if needs.long_segments {
        add(functions, put_function(alloc)?)?;
        add(functions, zero_function(alloc)?)?;
    }
    Ok(())
}

// Runs of bytes and data segments.
#[tactic(auto, using(wasm2js_helpers::proofs::Chosen::one_more))]
fn run_and_data_helpers(
    alloc: Global,
    bytes: u32,
    needs: &Needs,
    functions: &mut List<Function>,
) -> Result<(), AllocError>
    ensures { IfOk result (λ _. map function_view (list_items functions.new) ≡ map function_view (list_items functions.old) ++ chosen (run_choices needs.now bytes ++ data_choices needs.now)) }
{
    run_helpers(alloc, bytes, needs, functions)?;
    data_helpers(alloc, needs, functions)
}

// Those on a memory of so many bytes.
#[tactic(auto, using(wasm2js_helpers::proofs::Chosen::one_more))]
fn helpers_of_memory(
    alloc: Global,
    bytes: u32,
    needs: &Needs,
    functions: &mut List<Function>,
) -> Result<(), AllocError>
    ensures { IfOk result (λ _. map function_view (list_items functions.new) ≡ map function_view (list_items functions.old) ++ chosen (access_choices needs.now ++ (run_choices needs.now bytes ++ data_choices needs.now))) }
{
    access_helpers(alloc, needs, functions)?;
    run_and_data_helpers(alloc, bytes, needs, functions)
}

// Those on the memory, where there is one.
fn memory_helpers(
    alloc: Global,
    memory: Option<u32>,
    needs: &Needs,
    functions: &mut List<Function>,
) -> Result<(), AllocError>
    ensures { IfOk result (λ _. map function_view (list_items functions.new) ≡ map function_view (list_items functions.old) ++ chosen (memory_choices needs.now memory)) }
{
    match memory {
        Some(bytes) => helpers_of_memory(alloc, bytes, needs, functions),
        None => Ok(()),
    }
}

// Those on words.
#[tactic(auto, using(wasm2js_helpers::proofs::Chosen::one_more))]
fn word_helpers(
    alloc: Global,
    needs: &Needs,
    functions: &mut List<Function>,
) -> Result<(), AllocError>
    ensures { IfOk result (λ _. map function_view (list_items functions.new) ≡ map function_view (list_items functions.old) ++ chosen (word_choices needs.now ++ division_choices needs.now)) }
{
    wide_helpers(alloc, needs, functions)?;
    division_helpers(alloc, needs, functions)
}

#[tactic(auto, using(wasm2js_helpers::proofs::Chosen::one_more))]
fn push_all(
    alloc: Global,
    memory: Option<u32>,
    needs: &Needs,
    functions: &mut List<Function>,
) -> Result<(), AllocError>
    ensures { IfOk result (λ _. map function_view (list_items functions.new) ≡ map function_view (list_items functions.old) ++ helpers_with needs.now memory) }
{
    word_helpers(alloc, needs, functions)?;
    memory_helpers(alloc, memory, needs, functions)
}

/// Adds the helpers of each module that has a memory of so many bytes, or none, and asks for these.
pub fn push_helpers(
    alloc: Global,
    memory: Option<u32>,
    needs: &Needs,
    functions: &mut List<Function>,
) -> Result<(), AllocError>
    ensures { IfOk result (λ _. (m : WasmModule) → memory ≡ memory_of m → needs.now ≡ needs_for m → map function_view (list_items functions.new) ≡ map function_view (list_items functions.old) ++ helpers m) }
{
    push_all(alloc, memory, needs, functions)
}
