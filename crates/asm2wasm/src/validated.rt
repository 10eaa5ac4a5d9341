//! The translation as a valid module.
ghost use Rattle.std.specs.Prelude.{◌≡◌, true, IfOk};
ghost use Rattle.wasm_lang.specs.Limits.{IsWithinReader};
ghost use Rattle.wasm_lang.specs.Shape.{IsShaped, IsWritable};
ghost use Rattle.wasm_lang_valid.specs.Profile.{IsInProfile};
ghost use Rattle.wasm_lang_valid.specs.Validity.{IsValidModule};
ghost use Rattle.wasm_tree.specs.Views.{module_of};
ghost use Rattle.asm_tree.specs.Views.{module_view};
ghost use Rattle.asm2wasm_lang.specs.Allowed.{IsAllowed, IsBounded};
ghost use Rattle.asm2wasm_lang.specs.Heaps.{is_heap_length};
ghost use Rattle.asm2wasm_translation.specs.Modules.{translation};
ghost use Rattle.asm2wasm_lang.specs.Small.{IsSmall};
ghost use Rattle.asm2wasm_lang.specs.Short.{IsOfShortText};
ghost use Rattle.asm2wasm_lang.specs.Parts.{NeverTraps, HasFunctions, HasTables, StandsFor};

use crate::standing::translation_stands;
use crate::translating::translate_module;
use asm_validate::Checked;
use std::alloc::{AllocError, Global};
use wasm_lang_valid::refusal_laws;
use wasm_tree::Module;
use wasm_validate::{Invalid, Valid, validate};

/// The module of WebAssembly for an accepted module of asm.js with a heap of so many bytes, which an interpreter takes.
///
/// It is called as asked, and shows what the text shows, at a bounded pace. Its sessions never trap. A reader takes it;
/// where the text is short, it can be written, and where the text is small, translated back. The validator passes over it
/// once, and never refuses it.
pub fn translate<'a>(
    alloc: Global,
    checked: &'a Checked,
    heap: u32,
) -> Result<Valid<'a>, AllocError>
    requires length { is_heap_length heap ≡ true }
    ensures exact { IfOk result (λ valid. valid ≡ translation (module_view checked.now) heap) }
    ensures stands { IfOk result (λ valid. StandsFor (module_view checked.now) heap valid) }
    ensures allowed { IfOk result (λ valid. IsAllowed (module_view checked.now) heap valid) }
    ensures bounded { IfOk result (λ valid. IsBounded (module_view checked.now) heap valid) }
    ensures never_traps { IfOk result (λ valid. NeverTraps valid) }
    ensures within { IfOk result (λ valid. IsWithinReader valid) }
    ensures writable { IfOk result (λ valid. IsOfShortText (module_view checked.now) → IsWritable valid) }
    ensures profile { IfOk result (λ valid. IsSmall (module_view checked.now) → IsInProfile valid) }
    ensures functions { IfOk result (λ valid. HasFunctions (module_view checked.now) heap valid) }
    ensures tables { IfOk result (λ valid. HasTables (module_view checked.now) valid) }
{
    translation_stands();
    let _home = checked.module();
    let made = translate_module(alloc, checked, heap)?;
    validated(alloc, made)
}

// A module that the validator doesn't refuse.
fn validated<'a>(alloc: Global, made: Module<'a>) -> Result<Valid<'a>, AllocError>
    requires shaped { IsShaped (module_of made) }
    requires valid { IsValidModule (module_of made) }
    ensures { IfOk result (λ valid. valid ≡ module_of made.entry) }
{
    refusal_laws();
    match validate(alloc, made) {
        Ok(valid) => Ok(valid),
        Err(fault) => Err(want_of_memory(fault)),
    }
}

// The one fault of a module that is valid.
fn want_of_memory(fault: Invalid) -> AllocError
    requires { fault ≡ Invalid.Memory }
{
    match fault {
        Invalid::Memory => AllocError,
        Invalid::Rule { .. } => unreachable!(),
    }
}
