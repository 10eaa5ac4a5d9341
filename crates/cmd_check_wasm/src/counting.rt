//! The counts of a valid module.
ghost use Rattle.std.specs.Prelude.{IfOk, IfErr};
ghost use Rattle.bridge_lang.specs.WasmVerdicts.{IsCounted};
ghost use Rattle.cmd_check_wasm.specs.Verdicts.{IsRefused};

use crate::checking::check_bytes;
use crate::fault::CheckFault;
use std::alloc::Global;
use std::mem;
use wasm_listing::counts_line;

/// The counts line of the valid module that the bytes spell.
pub fn counts(alloc: Global, bytes: &[u8]) -> Result<Vec<u8>, CheckFault>
    ensures counted { IfOk result (λ line. IsCounted bytes.now line.items) }
    ensures refused { IfErr result (λ fault. IsRefused bytes.now fault) }
{
    let valid = check_bytes(alloc, bytes)?;
    let line = counts_line(alloc, valid.module());
    // The command ends here, and the system takes the memory back faster than piece by piece.
    mem::forget(valid);
    match line {
        Ok(line) => Ok(line),
        Err(_) => Err(CheckFault::Memory),
    }
}
