//! What a text's module is written as.
ghost use Rattle.std.specs.Prelude.{◌≤◌, length, IfOk, IfErr};
ghost use Rattle.bridge_lang.specs.Job.{file_limit};
ghost use Rattle.cmd_wat2wasm.specs.Verdicts.{IsRefused, IsSpelledFor};

use crate::checking::check_wat;
use crate::fault::TextFault;
use cmd_check_wasm::CheckFault;
use std::alloc::Global;
use std::mem;
use wasm_binary_write::{spelling_laws, write};

/// The shortest spelling of the valid module that a text says.
pub fn spelled(alloc: Global, text: &[u8]) -> Result<Vec<u8>, TextFault>
    requires { length text.now ≤ file_limit }
    ensures made { IfOk result (λ bytes. IsSpelledFor text.now bytes.items) }
    ensures refused { IfErr result (λ fault. IsRefused text.now fault) }
{
    spelling_laws();
    let valid = check_wat(alloc, text)?;
    let bytes = write(alloc, valid.module());
    // The command ends here, and the system takes the memory back faster than piece by piece.
    mem::forget(valid);
    match bytes {
        Ok(bytes) => Ok(bytes),
        Err(_) => Err(TextFault::Check(CheckFault::Memory)),
    }
}
