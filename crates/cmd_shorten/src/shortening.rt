//! The text of the short form.

ghost use Rattle.std.specs.Prelude.{◌≡◌, IfOk, IfErr};
ghost use Rattle.asm_tree.specs.Views.{module_view};
ghost use Rattle.bridge_lang.specs.Shortening.{IsShortened};
ghost use Rattle.cmd_check_asm.specs.Verdicts.{IsRefusal};
ghost use Rattle.cmd_shorten.specs.Texts.{IsShortenedText};

use asm_grammar_print::print;
use asm_short::shorten;
use asm_text::printed_texts_are_read;
use asm_validate::Checked;
use cmd_check_asm::{CheckFault, check_text};
use std::alloc::{AllocError, Global};
use std::mem;

// Of an accepted module.
fn text_of(alloc: Global, checked: &Checked) -> Result<Vec<u8>, AllocError>
    ensures { IfOk result (λ output. IsShortened (module_view checked.now) output.items) }
{
    printed_texts_are_read();
    let short = shorten(alloc, checked)?;
    let output = print(alloc, short.module());
    // The command ends soon, and the system takes the memory back faster than piece by piece. So below.
    mem::forget(short);
    match output {
        Ok(output) => Ok(output),
        Err(_) => Err(AllocError),
    }
}

/// The canonical text of the short form of the module that a text says.
pub fn short_text(alloc: Global, text: &[u8]) -> Result<Vec<u8>, CheckFault>
    ensures made { IfOk result (λ output. IsShortenedText text.now output.items) }
    ensures refused { IfErr result (λ fault. IsRefusal text.now fault) }
{
    let checked = check_text(alloc, text)?;
    let output = text_of(alloc, &checked);
    mem::forget(checked);
    match output {
        Ok(output) => Ok(output),
        Err(_) => Err(CheckFault::Memory),
    }
}
