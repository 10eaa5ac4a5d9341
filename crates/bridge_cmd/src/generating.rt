//! The summary of a text of so many functions.
ghost use Rattle.std.specs.Prelude.{◌≡◌, None, IfOk, length};
ghost use Rattle.asm_tree.specs.Views.{module_view};
ghost use Rattle.asm_lang.specs.Printing.{canonical_text};
ghost use Rattle.asm_lang_valid.specs.Texts.{IsAcceptedText};
ghost use Rattle.wasm_lang_valid.specs.Profile.{outside_profile};
ghost use Rattle.wasm_binary_write.specs.Spelling.{spelling};
ghost use Rattle.wasm2js_translation.specs.Modules.{translated as asm_js_for};
ghost use Rattle.gen_lang.specs.Recipe as spec;
ghost use Rattle.gen_laws.specs.Modules.{recipe_module};
ghost use Rattle.bridge_lang.specs.Job.{IsSummarized};

use asm_text::printed_texts_are_read;
use asm_validate::Checked;
use asm2wasm::translate;
use bridge_args::FunctionCount;
use cmd_check_asm::{CheckFault, check_text};
use cmd_gen::{Lengths, recipe, summary};
use std::alloc::{AllocError, Global};
use wasm_binary_write::{spelling_laws, write};
use wasm_validate::Valid;

// bytes
const HEAP: u32 = 65_536;

/// The summary of a text of so many functions. The text is accepted, and what is made of it can be translated back.
pub(crate) fn generated(alloc: Global, count: FunctionCount) -> Result<Vec<u8>, AllocError>
    ensures { IfOk result (λ output. IsSummarized count.functions output.items) }
{
    gen_laws::recipes();
    asm2wasm_laws_writable::texts();
    wasm2js_laws_simulation::whole_laws::spelled();
    wasm2js_laws_simulation::bounded_laws::spelled();
    printed_texts_are_read();
    spelling_laws();
    let text = recipe(alloc, count.functions)?;
    let bytes = text.as_slice();
    let checked = accepted(alloc, bytes, count)?;
    let _home = checked.module();
    let valid = translate(alloc, &checked, HEAP)?;
    let length = bytes.len();
    summed(alloc, count.functions, length, &valid)
}

// The module that the text says.
fn accepted(alloc: Global, text: &[u8], count: FunctionCount) -> Result<Checked, AllocError>
    requires { IsAcceptedText text.now (recipe_module count.functions) }
    ensures { IfOk result (λ checked. module_view checked ≡ recipe_module count.functions) }
{
    match check_text(alloc, text) {
        Ok(checked) => Ok(checked),
        Err(fault) => Err(want_of_memory(fault)),
    }
}

// The one fault of an accepted text.
fn want_of_memory(fault: CheckFault) -> AllocError
    requires { fault ≡ CheckFault.Memory }
{
    match fault {
        CheckFault::Memory => AllocError,
        CheckFault::Refused { .. } => unreachable!(),
    }
}

// The summary of a module that can be translated back.
fn summed(
    alloc: Global,
    functions: u32,
    text: usize,
    valid: &Valid<'_>,
) -> Result<Vec<u8>, AllocError>
    requires { outside_profile valid.now ≡ None }
    ensures { IfOk result (λ output. output.items
        ≡ spec.summary functions text (length (spelling valid.now)) (length (canonical_text (asm_js_for valid.now)))) }
{
    let bytes = write(alloc, valid.module())?;
    let back = wasm2js::print_module(alloc, valid)?;
    let lengths = Lengths {
        text,
        wasm: bytes.len(),
        back: back.len(),
    };
    summary(alloc, functions, lengths)
}
