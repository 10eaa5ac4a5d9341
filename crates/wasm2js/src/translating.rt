//! The whole module.
ghost use Rattle.std.specs.Prelude.{◌≡◌, ◌∷◌, ◌++◌, [], None, Some, map, IfOk};
ghost use Rattle.sem_words.specs.Lists.{list_items};
ghost use Rattle.session_lang.specs.Script.{ScriptPlain};
ghost use Rattle.asm_lang.specs.Heights.{IsWellFormed};
ghost use Rattle.asm_lang_valid.specs.Refusal.{IsAccepted};
ghost use Rattle.asm_lang_exec.specs.Fits.{misfit};
ghost use Rattle.asm_tree.specs.Views.{module_view, function_view, texts_view};
ghost use Rattle.wasm_lang_valid.specs.Profile.{outside_profile};
ghost use Rattle.wasm_lang_exec.specs.Fits as machine;
ghost use Rattle.wasm2js_lang.specs.Heaps.{heap_bytes};
ghost use Rattle.wasm2js_lang.specs.Calling.{IsCalledAs};
ghost use Rattle.wasm2js_lang.specs.Allowed.{IsAllowed, IsBounded, TrapsAreCalls, script_for};
ghost use Rattle.wasm2js_lang.specs.Helpers.{HasHelpers};
ghost use Rattle.wasm2js_lang.specs.Tables as plain;
ghost use Rattle.wasm2js_lang.specs.Parts.Functions.{HasFunctions};
ghost use Rattle.wasm2js_lang.specs.Parts.Imports.{HasImports};
ghost use Rattle.wasm2js_lang.specs.Parts.Tables.{HasTables};
ghost use Rattle.wasm2js_translation.specs.Modules as code;
ghost use Rattle.wasm2js_tables.specs.Views.{masked_view};
ghost use Rattle.wasm2js.specs.Parts.{first_functions, last_functions, without_functions};

use crate::memory::{memory, needs};
use asm_tree::{Function, Module};
use asm_validate::{AsmRefusal, Checked, validate};
use sem_words::{List, Text};
use std::alloc::{AllocError, Global};
use wasm_validate::Valid;
use wasm2js_functions::push_functions;
use wasm2js_laws_acceptance::accepted_laws::acceptance;
use wasm2js_laws_acceptance::called_laws::calling;
use wasm2js_laws_acceptance::parts_laws::parts;
use wasm2js_memory_helpers::push_helpers;
use wasm2js_sections::{exports, high_function, init_function, variables};
use wasm2js_source::source;
use wasm2js_stubs::{push_stubs, tables};
use wasm2js_tables::{MaskedTable, masked};

/// The module of asm.js for a valid module of WebAssembly that can be translated. The validator passes over it once more, and never
/// refuses it, so that an interpreter of asm.js and the other translation take it.
pub fn translate(alloc: Global, valid: &Valid<'_>) -> Result<Checked, AllocError>
    requires { outside_profile valid.now ≡ None }
    ensures exact { IfOk result (λ m. module_view m ≡ code.translated valid.now) }
    ensures accepted { IfOk result (λ m. IsAccepted (module_view m)) }
    ensures well_formed { IfOk result (λ m. IsWellFormed (module_view m)) }
    ensures called { IfOk result (λ m. IsCalledAs valid.now (module_view m)) }
    ensures fits { IfOk result (λ m. (s : ScriptPlain) → machine.misfit valid.now s ≡ None → misfit (module_view m) (heap_bytes valid.now) (script_for valid.now s) ≡ None) }
    ensures allowed { IfOk result (λ m. IsAllowed valid.now (module_view m)) }
    ensures traps { IfOk result (λ m. TrapsAreCalls valid.now (module_view m)) }
    ensures bounded { IfOk result (λ m. IsBounded valid.now (module_view m)) }
    ensures functions { IfOk result (λ m. HasFunctions valid.now (module_view m)) }
    ensures tables { IfOk result (λ m. HasTables valid.now (module_view m)) }
    ensures imports { IfOk result (λ m. HasImports valid.now (module_view m)) }
    ensures helpers { IfOk result (λ m. HasHelpers valid.now (module_view m)) }
{
    let made = translate_module(alloc, valid)?;
    checked(alloc, made)
}

// A module that the validator doesn't refuse.
fn checked(alloc: Global, made: Module) -> Result<Checked, AllocError>
    requires well_formed { IsWellFormed (module_view made) }
    requires accepted { IsAccepted (module_view made) }
    ensures { IfOk result (λ checked. checked ≡ made) }
{
    match validate(alloc, made) {
        Ok(checked) => Ok(checked),
        Err(refusal) => Err(want_of_memory(refusal)),
    }
}

// The one fault of a module that is accepted.
fn want_of_memory(refusal: AsmRefusal) -> AllocError
    requires { refusal ≡ AsmRefusal.Memory }
{
    match refusal {
        AsmRefusal::Memory => AllocError,
        AsmRefusal::Refused { .. } => unreachable!(),
    }
}

/// The tree of a module of asm.js for a valid module of WebAssembly that can be translated: it is accepted, some text says it, it is
/// called as asked, and it takes each script that its source takes. With each of them the two show the same, and it calls the
/// trap import exactly where its source traps. It has the functions, tables and imports that its source asks for, and no others,
/// and the helpers for words of 64 bits, by name and by what they do.
pub fn translate_module(alloc: Global, valid: &Valid<'_>) -> Result<Module, AllocError>
    requires { outside_profile valid.now ≡ None }
    ensures exact { IfOk result (λ m. module_view m ≡ code.translated valid.now) }
    ensures accepted { IfOk result (λ m. IsAccepted (module_view m)) }
    ensures well_formed { IfOk result (λ m. IsWellFormed (module_view m)) }
    ensures called { IfOk result (λ m. IsCalledAs valid.now (module_view m)) }
    ensures fits { IfOk result (λ m. (s : ScriptPlain) → machine.misfit valid.now s ≡ None → misfit (module_view m) (heap_bytes valid.now) (script_for valid.now s) ≡ None) }
    ensures allowed { IfOk result (λ m. IsAllowed valid.now (module_view m)) }
    ensures traps { IfOk result (λ m. TrapsAreCalls valid.now (module_view m)) }
    ensures bounded { IfOk result (λ m. IsBounded valid.now (module_view m)) }
    ensures functions { IfOk result (λ m. HasFunctions valid.now (module_view m)) }
    ensures tables { IfOk result (λ m. HasTables valid.now (module_view m)) }
    ensures imports { IfOk result (λ m. HasImports valid.now (module_view m)) }
    ensures helpers { IfOk result (λ m. HasHelpers valid.now (module_view m)) }
{
    properties(valid);
    exactly(alloc, valid)
}

// What a module is translated to is accepted and well formed, is called as asked, and takes each script of its source; its
// sessions show what those of the source show, where those trap it calls the trap import,
// and a reduction is worth at most 256 units. Its functions, tables and imports are those that are asked for,
// and it has the helpers for words of 64 bits.
fn properties(valid: &Valid<'_>)
    requires { outside_profile valid.now ≡ None }
    ensures accepted { IsAccepted (code.translated valid.now) }
    ensures well_formed { IsWellFormed (code.translated valid.now) }
    ensures called { IsCalledAs valid.now (code.translated valid.now) }
    ensures fits { (s : ScriptPlain) → machine.misfit valid.now s ≡ None → misfit (code.translated valid.now) (heap_bytes valid.now) (script_for valid.now s) ≡ None }
    ensures allowed { IsAllowed valid.now (code.translated valid.now) }
    ensures traps { TrapsAreCalls valid.now (code.translated valid.now) }
    ensures bounded { IsBounded valid.now (code.translated valid.now) }
    ensures functions { HasFunctions valid.now (code.translated valid.now) }
    ensures tables { HasTables valid.now (code.translated valid.now) }
    ensures imports { HasImports valid.now (code.translated valid.now) }
    ensures helpers { HasHelpers valid.now (code.translated valid.now) }
{
    acceptance();
    calling();
    parts();
    wasm2js_laws_simulation::whole_laws::translations();
    wasm2js_laws_simulation::bounded_laws::translations();
    wasm2js_laws_simulation::helping_laws::wide_helpers();
    source(valid);
}

fn exactly(alloc: Global, valid: &Valid<'_>) -> Result<Module, AllocError>
    requires { outside_profile valid.now ≡ None }
    ensures { IfOk result (λ m. module_view m ≡ code.translated valid.now) }
{
    let masked = masked(alloc, valid)?;
    translated(alloc, valid, masked.as_slice())
}

// .. with these tables.
fn translated(
    alloc: Global,
    valid: &Valid<'_>,
    masked: &[MaskedTable],
) -> Result<Module, AllocError>
    requires within { outside_profile valid.now ≡ None }
    requires tables { map masked_view masked.now ≡ plain.masked valid.now }
    ensures { IfOk result (λ m. module_view m ≡ code.translated valid.now) }
{
    let functions = functions(alloc, valid, masked)?;
    let mut module = frame(alloc, valid, masked)?;
    module.functions = functions;
    Ok(module)
}

/// The module without its functions.
pub(crate) fn frame(
    alloc: Global,
    valid: &Valid<'_>,
    masked: &[MaskedTable],
) -> Result<Module, AllocError>
    requires within { outside_profile valid.now ≡ None }
    requires tables { map masked_view masked.now ≡ plain.masked valid.now }
    ensures { IfOk result (λ m. module_view m ≡ without_functions valid.now) }
{
    let name = Text::from_bytes(alloc, b"wasm")?;
    let params = params(alloc)?;
    Ok(Module {
        name: Some(name),
        params,
        globals: variables(alloc, valid)?,
        functions: List::new(alloc),
        tables: tables(alloc, valid, masked)?,
        exports: exports(alloc, valid)?,
    })
}

fn push_text(alloc: Global, texts: &mut List<Text>, word: &[u8]) -> Result<(), AllocError>
    ensures { IfOk result (λ _. texts_view (list_items texts.new) ≡ texts_view (list_items texts.old) ++ word.now ∷ []) }
{
    match texts.push(Text::from_bytes(alloc, word)?) {
        Ok(()) => Ok(()),
        Err(_) => Err(AllocError),
    }
}

// The standard library, the host's object and the heap.
fn params(alloc: Global) -> Result<List<Text>, AllocError>
    ensures { IfOk result (λ texts. texts_view (list_items texts) ≡ code.stdlib_name ∷ code.foreign_name ∷ code.heap_name ∷ []) }
{
    let mut texts = List::new(alloc);
    push_text(alloc, &mut texts, b"stdlib")?;
    push_text(alloc, &mut texts, b"foreign")?;
    push_text(alloc, &mut texts, b"heap")?;
    Ok(texts)
}

fn push(functions: &mut List<Function>, function: Function) -> Result<(), AllocError>
    ensures { IfOk result (λ _. map function_view (list_items functions.new) ≡ map function_view (list_items functions.old) ++ function_view function ∷ []) }
{
    match functions.push(function) {
        Ok(()) => Ok(()),
        Err(_) => Err(AllocError),
    }
}

// The helpers and what stands for the source's functions.
fn push_first(
    alloc: Global,
    valid: &Valid<'_>,
    functions: &mut List<Function>,
) -> Result<(), AllocError>
    requires { outside_profile valid.now ≡ None }
    ensures { IfOk result (λ _. map function_view (list_items functions.new) ≡ map function_view (list_items functions.old) ++ first_functions valid.now) }
{
    let needs = needs(alloc, valid)?;
    push_helpers(alloc, memory(valid), &needs, functions)?;
    push_functions(alloc, valid, functions)?;
    Ok(())
}

// The functions that begin a session and give the last high word.
#[tactic(auto, using(std::proofs::lemmas::List::append_assoc))]
fn push_ends(
    alloc: Global,
    valid: &Valid<'_>,
    functions: &mut List<Function>,
) -> Result<(), AllocError>
    ensures { IfOk result (λ _. map function_view (list_items functions.new) ≡ map function_view (list_items functions.old) ++ code.init_function valid.now ∷ code.high_function ∷ []) }
{
    push(functions, init_function(alloc, valid)?)?;
    push(functions, high_function(alloc)?)
}

/// What stands for missing entries of tables, and the last two functions.
pub(crate) fn push_last(
    alloc: Global,
    valid: &Valid<'_>,
    masked: &[MaskedTable],
    functions: &mut List<Function>,
) -> Result<(), AllocError>
    requires within { outside_profile valid.now ≡ None }
    requires tables { map masked_view masked.now ≡ plain.masked valid.now }
    ensures { IfOk result (λ _. map function_view (list_items functions.new) ≡ map function_view (list_items functions.old) ++ last_functions valid.now) }
{
    push_stubs(alloc, valid, masked, functions)?;
    match push_ends(alloc, valid, functions) {
        Ok(()) => Ok(()),
        Err(_) => Err(AllocError),
    }
}

fn functions(
    alloc: Global,
    valid: &Valid<'_>,
    masked: &[MaskedTable],
) -> Result<List<Function>, AllocError>
    requires within { outside_profile valid.now ≡ None }
    requires tables { map masked_view masked.now ≡ plain.masked valid.now }
    ensures { IfOk result (λ fs. map function_view (list_items fs) ≡ code.functions_of valid.now) }
{
    let mut functions = List::new(alloc);
    push_first(alloc, valid, &mut functions)?;
    push_last(alloc, valid, masked, &mut functions)?;
    Ok(functions)
}
