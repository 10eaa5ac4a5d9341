//! The text of the whole module, whose functions are printed as they are made.
ghost use Rattle.std.specs.Prelude.{◌≡◌, None, map, IfOk, OnOk};
ghost use Rattle.asm_lang.specs.Printing.{functions_text, canonical_text};
ghost use Rattle.asm_tree.specs.Views.{module_view};
ghost use Rattle.asm_grammar_print.specs.Put.{written, put};
ghost use Rattle.wasm_lang_valid.specs.Profile.{outside_profile};
ghost use Rattle.wasm2js_lang.specs.Tables as plain;
ghost use Rattle.wasm2js_translation.specs.Modules as code;
ghost use Rattle.wasm2js_tables.specs.Views.{masked_view};
ghost use Rattle.wasm2js.specs.Parts.{last_functions, without_functions};

use crate::memory::{memory, needs};
use crate::translating::{frame, push_last};
use asm_grammar_print::{Output, put_back, put_front, put_functions};
use asm_tree::Module;
use sem_words::List;
use std::alloc::{AllocError, Global};
use wasm_validate::Valid;
use wasm2js_functions::print_functions;
use wasm2js_memory_helpers::push_helpers;
use wasm2js_tables::{MaskedTable, masked};

/// The canonical text of the module of asm.js that `translate_module` makes. No more than one of the functions that stand for the
/// source's is held as a tree.
pub fn print_module(alloc: Global, valid: &Valid<'_>) -> Result<Vec<u8>, AllocError>
    requires { outside_profile valid.now ≡ None }
    ensures { IfOk result (λ text. text.items ≡ canonical_text (code.translated valid.now)) }
{
    let masked = masked(alloc, valid)?;
    let masked = masked.as_slice();
    let frame = frame(alloc, valid, masked)?;
    print_in(alloc, valid, masked, &frame)
}

// .. with these tables, in this module without functions.
fn print_in(
    alloc: Global,
    valid: &Valid<'_>,
    masked: &[MaskedTable],
    frame: &Module,
) -> Result<Vec<u8>, AllocError>
    requires within { outside_profile valid.now ≡ None }
    requires tables { map masked_view masked.now ≡ plain.masked valid.now }
    requires frame { module_view frame.now ≡ without_functions valid.now }
    ensures { IfOk result (λ text. text.items ≡ canonical_text (code.translated valid.now)) }
{
    let mut out = Output::new(alloc);
    put_front(&mut out, frame)?;
    print_all(alloc, valid, masked, &mut out)?;
    put_back(&mut out, frame)?;
    Ok(out.into_bytes())
}

// The helpers, what stands for the source's functions, and what stands behind these.
fn print_all(
    alloc: Global,
    valid: &Valid<'_>,
    masked: &[MaskedTable],
    out: &mut Output,
) -> Result<(), AllocError>
    requires within { outside_profile valid.now ≡ None }
    requires tables { map masked_view masked.now ≡ plain.masked valid.now }
    ensures { OnOk result (written out.new ≡ put (written out.old) (functions_text (code.functions_of valid.now))) }
{
    print_helpers(alloc, valid, out)?;
    print_functions(alloc, valid, out)?;
    print_last(alloc, valid, masked, out)
}

fn print_helpers(alloc: Global, valid: &Valid<'_>, out: &mut Output) -> Result<(), AllocError>
    requires { outside_profile valid.now ≡ None }
    ensures { OnOk result (written out.new ≡ put (written out.old) (functions_text (code.helpers valid.now))) }
{
    let needs = needs(alloc, valid)?;
    let mut made = List::new(alloc);
    push_helpers(alloc, memory(valid), &needs, &mut made)?;
    put_functions(out, made.as_slice())
}

fn print_last(
    alloc: Global,
    valid: &Valid<'_>,
    masked: &[MaskedTable],
    out: &mut Output,
) -> Result<(), AllocError>
    requires within { outside_profile valid.now ≡ None }
    requires tables { map masked_view masked.now ≡ plain.masked valid.now }
    ensures { OnOk result (written out.new ≡ put (written out.old) (functions_text (last_functions valid.now))) }
{
    let mut made = List::new(alloc);
    push_last(alloc, valid, masked, &mut made)?;
    put_functions(out, made.as_slice())
}
