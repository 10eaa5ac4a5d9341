//! The bodies of functions.
ghost use Rattle.std.specs.Prelude.{◌≡◌, ◌-◌, [], ◌∷◌, ◌++◌, length, map, max, replicate, IfOk};
ghost use Rattle.sem_words.specs.Lists.{list_items};
ghost use Rattle.wasm_lang.specs.declared.types.ValType.TheVariants.{I32};
ghost use Rattle.wasm_lang.specs.Instructions.{end_mark};
ghost use Rattle.wasm_tree.specs.Views.{instr_of, locals_in, body_of};
ghost use Rattle.wasm_laws_write.specs.Each.{EachIn};
ghost use Rattle.wasm_laws_write.specs.Lengths.{IsNarrow};
ghost use Rattle.asm_tree.specs.Views.{module_view, function_view};
ghost use Rattle.asm2wasm_translation.specs.Numbers.{first_scratch};
ghost use Rattle.asm2wasm_translation.specs.Bodies.{function_code};
ghost use Rattle.asm2wasm_translation.specs.Modules.{body_for};
ghost use Rattle.asm2wasm_numbers.specs.Functions.{scope_said};
ghost use Rattle.asm2wasm_emit_switches.specs.Reach.{farthest};
ghost use Rattle.asm2wasm.specs.Narrow.{IsNarrowFunction, AreNarrow};

use asm_tree::Function;
use asm2wasm_emit_bodies::emit_function;
use asm2wasm_emit_switches::{reach_of, reaches};
use asm2wasm_numbers::{FunctionNumbers, ModuleNumbers};
use sem_words::List;
use std::alloc::{AllocError, Global};
use wasm_tree::{Body, Code, Instr, Run, ValType};

/// The bodies of functions, for a heap of so many bytes.
pub fn bodies(
    alloc: Global,
    functions: &[Function],
    numbers: &ModuleNumbers<'_>,
    heap: usize,
) -> Result<List<Body<'static>>, AllocError>
    requires narrow { AreNarrow (module_view numbers.now) heap (map function_view functions.now) }
    ensures { IfOk result (λ bodies. map body_of (list_items bodies) ≡ map (body_for (module_view numbers.now) heap) (map function_view functions.now)) }
{
    let mut bodies = Vec::new(alloc);
    for function in functions {
        bodies.push(body(alloc, function, numbers, heap)?)?;
    }
    Ok(List::from_vec(bodies))
}

fn body(
    alloc: Global,
    function: &Function,
    numbers: &ModuleNumbers<'_>,
    heap: usize,
) -> Result<Body<'static>, AllocError>
    requires narrow { IsNarrowFunction (module_view numbers.now) heap (function_view function.now) }
    ensures { IfOk result (λ body. body_of body ≡ body_for (module_view numbers.now) heap (function_view function.now)) }
{
    let numbers = FunctionNumbers::new(alloc, numbers, function)?;
    body_with(alloc, &numbers, heap)
}

// .. with the numbers of its variables.
fn body_with(
    alloc: Global,
    numbers: &FunctionNumbers<'_, '_>,
    heap: usize,
) -> Result<Body<'static>, AllocError>
    requires narrow { EachIn IsNarrow (function_code heap (scope_said numbers.now)) }
    ensures { IfOk result (λ body. body_of body ≡ body_for (module_view numbers.now.home) heap (function_view numbers.now.function)) }
{
    reaches();
    let code = emit_function(alloc, numbers, heap)?.into_list();
    let locals = ints(alloc, locals_of(numbers, code.as_slice()))?;
    let code = Code::Own(ended(code)?);
    Ok(Body { locals, code })
}

// So many locals, in one run or, where they are too many for one, in several.
fn ints(alloc: Global, count: usize) -> Result<List<Run>, AllocError>
    ensures { IfOk result (λ ints. locals_in (list_items ints) ≡ replicate count I32) }
{
    let mut ints = Vec::new(alloc);
    let mut rest = count;
    while rest > 0 {
        let part = rest.min(u32::MAX as usize);
        ints.push(Run {
            count: part as u32,
            kind: ValType::I32,
        })?;
        rest -= part;
    }
    Ok(List::from_vec(ints))
}

// The expression of this code.
fn ended(code: List<Instr>) -> Result<List<Instr>, AllocError>
    ensures { IfOk result (λ all. map instr_of (list_items all) ≡ map instr_of (list_items code) ++ end_mark ∷ []) }
{
    let mut code = code.into_vec();
    code.push(Instr::End)?;
    Ok(List::from_vec(code))
}

// How many locals stand after the parameters: those of the function and the scratch locals that its code names.
fn locals_of(numbers: &FunctionNumbers<'_, '_>, code: &[Instr]) -> usize
    ensures { result ≡ max (first_scratch (scope_said numbers.now).within) (farthest (map instr_of code.now)) - length (scope_said numbers.now).within.params }
{
    let all = numbers.first_scratch().max(reach_of(code));
    all - numbers.function().params.len()
}
