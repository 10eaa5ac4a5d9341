//! The functions that stand for missing entries, and trap.
ghost use Rattle.std.specs.Prelude.{◌≡◌, ◌++◌, ◌∷◌, [], List, map, Some, None, IfOk, if◌then◌else◌};
ghost use Rattle.std.specs.List.{range_with_len};
ghost use Rattle.sem_words.specs.Lists.{list_items};
ghost use Rattle.wasm_lang_valid.specs.Profile.{outside_profile};
ghost use Rattle.asm_lang.specs.Modules as plain;
ghost use Rattle.asm_tree.specs.Views.{function_view};
ghost use Rattle.wasm2js_translation.specs.Words as words;
ghost use Rattle.wasm2js_translation.specs.Helpers as helpers;
ghost use Rattle.wasm2js_translation.specs.Tables;
ghost use Rattle.wasm2js_nodes.specs.Names.{name_view, numbered_view};
ghost use Rattle.wasm2js_build.specs.Blocks.{statements_of};
ghost use Rattle.wasm2js_tables.specs.Views.{masked_view};
ghost use Rattle.wasm2js_stubs.specs.Needs.{functions_at, functions_from};

use crate::needs::{Needed, needs_of};
use asm_tree::Function;
use sem_words::List;
use std::alloc::{AllocError, Global};
use wasm_validate::Valid;
use wasm2js_build::{Block, function};
use wasm2js_nodes::{Name, Numbered, natural, returns};
use wasm2js_tables::MaskedTable;

/// Adds the functions that the tables of a module in the profile need for missing entries.
pub fn push_stubs(
    alloc: Global,
    valid: &Valid<'_>,
    masked: &[MaskedTable],
    functions: &mut List<Function>,
) -> Result<(), AllocError>
    requires profile { outside_profile valid.now ≡ None }
    requires masked { map masked_view masked.now ≡ Tables.masked valid.now }
    ensures { IfOk result (λ _. map function_view (list_items functions.new) ≡ map function_view (list_items functions.old) ++ Tables.stubs valid.now) }
{
    let types = valid.module().types.as_slice();
    // Types in the profile have at most 1,000 parameters of two words.
    let needs = needs_of(alloc, 4002, types, masked)?;
    push_all(alloc, needs.as_slice(), functions)
}

fn push_all(
    alloc: Global,
    needs: &[Needed],
    functions: &mut List<Function>,
) -> Result<(), AllocError>
    ensures { IfOk result (λ _. map function_view (list_items functions.new) ≡ map function_view (list_items functions.old) ++ functions_from 0 needs.now) }
{
    for (stub, needed) in needs.iter().enumerate() {
        push_needed(alloc, stub as u64, *needed, functions)?;
    }
    Ok(())
}

// The two functions of a stub's number, each where it is needed.
#[tactic(auto, using(std::proofs::lemmas::List::append_assoc))]
fn push_needed(
    alloc: Global,
    stub: u64,
    needed: Needed,
    functions: &mut List<Function>,
) -> Result<(), AllocError>
    ensures { IfOk result (λ _. map function_view (list_items functions.new) ≡ map function_view (list_items functions.old) ++ functions_at stub needed) }
{
    push_where(alloc, needed.empty, Numbered::NoEntry, 5, stub, functions)?;
    push_where(
        alloc,
        needed.other,
        Numbered::OtherEntry,
        6,
        stub,
        functions,
    )
}

fn push_where(
    alloc: Global,
    is_needed: bool,
    name: Numbered,
    kind: u32,
    stub: u64,
    functions: &mut List<Function>,
) -> Result<(), AllocError>
    ensures { IfOk result (λ _. map function_view (list_items functions.new) ≡ map function_view (list_items functions.old) ++ (if is_needed then Tables.stub_function (numbered_view name) kind stub ∷ [] else [])) }
{
    if is_needed {
        let function = stub_function(alloc, name, kind, stub)?;
        add(functions, function)
    } else {
        Ok(())
    }
}

fn add(functions: &mut List<Function>, function: Function) -> Result<(), AllocError>
    ensures { IfOk result (λ _. map function_view (list_items functions.new) ≡ map function_view (list_items functions.old) ++ function_view function ∷ []) }
{
    match functions.push(function) {
        Ok(()) => Ok(()),
        Err(_) => Err(AllocError),
    }
}

fn stub_function(
    alloc: Global,
    name: Numbered,
    kind: u32,
    stub: u64,
) -> Result<Function, AllocError>
    ensures { IfOk result (λ f. function_view f ≡ Tables.stub_function (numbered_view name) kind stub) }
{
    let params = arguments(alloc, stub / 2)?;
    let body = stub_body(alloc, kind, stub % 2 == 1)?;
    function(
        alloc,
        Name::Counted(name, stub),
        params.as_slice(),
        &[],
        body,
    )
}

// A trap, and after it a result where one is asked for.
fn stub_body(alloc: Global, kind: u32, has_result: bool) -> Result<Block, AllocError>
    ensures { IfOk result (λ b. statements_of b ≡ words.trap_call kind ∷ (if has_result then plain.returns (Some (words.natural 0)) ∷ [] else [])) }
{
    let mut block = Block::new(alloc);
    block.stop(kind)?;
    if has_result {
        block.push(returns(natural(0)))?;
    }
    Ok(block)
}

fn arguments(alloc: Global, count: u64) -> Result<Vec<Name>, AllocError>
    ensures { IfOk result (λ names. map name_view names.items ≡ map helpers.argument (range_with_len 0 count)) }
{
    let mut names = Vec::new(alloc);
    for number in 0..count {
        names.push(Name::Counted(Numbered::LocalLow, number))?;
    }
    Ok(names)
}
