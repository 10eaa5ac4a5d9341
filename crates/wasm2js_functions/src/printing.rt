//! The functions, each printed before the next one is made, so that no more than one of them is there as a tree.
ghost use Rattle.std.specs.Prelude.{◌≡◌, ◌∷◌, None, slice_get, OnOk};
ghost use Rattle.wasm_tree.specs.Views.{module_of};
ghost use Rattle.wasm_lang_valid.specs.Measures.{measures_of};
ghost use Rattle.wasm_lang_valid.specs.Validity.{IsValidModule};
ghost use Rattle.wasm_lang_exec.specs.Reductions.{callees};
ghost use Rattle.asm_lang.specs.Printing.{functions_text};
ghost use Rattle.asm_grammar_print.specs.Put.{written, put};
ghost use Rattle.wasm2js_translation.specs.Modules as modules;
ghost use Rattle.wasm2js_functions.specs.Facts.{FactsOf};
ghost use Rattle.wasm2js_functions.specs.Listing.{wrapper_for, wrappers_from, own_at, own_from};

use crate::facts::{Facts, facts_of};
use crate::listing::{push_own, push_wrapper};
use asm_grammar_print::{Output, put_functions};
use sem_words::List;
use std::alloc::{AllocError, Global};
use wasm_tree::Module;
use wasm_validate::Valid;

fn print_wrapper(
    alloc: Global,
    module: &Module<'_>,
    number: u64,
    type_number: u32,
    out: &mut Output,
) -> Result<(), AllocError>
    ensures { OnOk result (written out.new ≡ put (written out.old) (functions_text (wrapper_for number (slice_get (module_of «module».now).types type_number)))) }
{
    let mut made = List::new(alloc);
    push_wrapper(alloc, module, number, type_number, &mut made)?;
    put_functions(out, made.as_slice())
}

// Those that call the imported functions.
fn print_wrappers(
    alloc: Global,
    module: &Module<'_>,
    types: &[u32],
    out: &mut Output,
) -> Result<(), AllocError>
    ensures { OnOk result (written out.new ≡ put (written out.old) (functions_text (wrappers_from (module_of «module».now) 0 types.now))) }
{
    for (number, type_number) in types.iter().enumerate() {
        print_wrapper(alloc, module, number as u64, *type_number, out)?;
    }
    Ok(())
}

fn print_own(
    alloc: Global,
    module: &Module<'_>,
    facts: &Facts,
    number: u64,
    place: usize,
    out: &mut Output,
) -> Result<(), AllocError>
    requires valid { IsValidModule (module_of «module».now) }
    requires facts { FactsOf facts.now (module_of «module».now) }
    requires translated { (measures_of (module_of «module».now)).mul_div ≡ None }
    ensures { OnOk result (let m = module_of «module».now in written out.new ≡ put (written out.old) (functions_text (own_at m number (slice_get m.functions place) (slice_get m.bodies place)))) }
{
    let mut made = List::new(alloc);
    push_own(alloc, module, facts, number, place, &mut made)?;
    put_functions(out, made.as_slice())
}

// Those that the module defines.
fn print_all_own(
    alloc: Global,
    module: &Module<'_>,
    facts: &Facts,
    out: &mut Output,
) -> Result<(), AllocError>
    requires valid { IsValidModule (module_of «module».now) }
    requires facts { FactsOf facts.now (module_of «module».now) }
    requires translated { (measures_of (module_of «module».now)).mul_div ≡ None }
    ensures { OnOk result (let m = module_of «module».now in written out.new ≡ put (written out.old) (functions_text (own_from m facts.now.imported m.functions m.bodies))) }
{
    for number in facts.imported..facts.functions.len() {
        let place = number - facts.imported;
        print_own(alloc, module, facts, number as u64, place, out)?;
    }
    Ok(())
}

/// Prints the functions of a valid module without products, quotients and remainders of words of 64 bits, the imported ones first.
pub fn print_functions(alloc: Global, valid: &Valid<'_>, out: &mut Output) -> Result<(), AllocError>
    requires { (measures_of valid.now).mul_div ≡ None }
    ensures { OnOk result (written out.new ≡ put (written out.old) (functions_text (modules.functions_from valid.now 0 (callees valid.now)))) }
{
    let module = valid.module();
    let facts = facts_of(alloc, module)?;
    let imported = &facts.functions[..facts.imported];
    print_wrappers(alloc, module, imported, out)?;
    print_all_own(alloc, module, &facts, out)
}
