//! Texts that say a valid module.
ghost use Rattle.std.specs.Prelude.{◌≤◌, length, IfOk, IfErr};
ghost use Rattle.wasm_lang.specs.Shape.{IsWritable};
ghost use Rattle.bridge_lang.specs.Job.{file_limit};
ghost use Rattle.bridge_lang.specs.WatVerdicts.{IsValidWat};
ghost use Rattle.cmd_wat2wasm.specs.Verdicts.{IsRefused};

use crate::fault::{TextFault, of_wat};
use cmd_check_wasm::of_invalid;
use std::alloc::Global;
use wasm_validate::{Valid, validate};
use wat_laws_read::said_modules;
use wat_laws_writable::writable;
use wat_text::read;

/// The valid module that a text says, which can be written where the text is no longer than a file may be.
pub fn check_wat<'a>(alloc: Global, text: &'a [u8]) -> Result<Valid<'a>, TextFault>
    ensures valid { IfOk result (λ valid. IsValidWat text.now valid) }
    ensures writable { IfOk result (λ valid. length text.now ≤ file_limit → IsWritable valid) }
    ensures refused { IfErr result (λ fault. IsRefused text.now fault) }
{
    said_modules();
    writable();
    match read(alloc, text) {
        Ok(module) => match validate(alloc, module) {
            Ok(valid) => Ok(valid),
            Err(invalid) => Err(TextFault::Check(of_invalid(invalid))),
        },
        Err(fault) => Err(of_wat(fault)),
    }
}
