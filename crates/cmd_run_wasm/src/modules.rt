//! Modules that are run.
ghost use Rattle.std.specs.Prelude.{IfOk, IfErr};
ghost use Rattle.bridge_lang.specs.WasmRuns.{IsRunnable};
ghost use Rattle.cmd_run_wasm.specs.Modules.{IsNotRun};

use crate::fault::RunFault;
use cmd_check_wasm::check_bytes;
use std::alloc::Global;
use wasm_validate::{Valid, runnable};

/// The valid module that the bytes spell, where it is one that can be run.
pub fn runnable_module<'a>(alloc: Global, bytes: &'a [u8]) -> Result<Valid<'a>, RunFault>
    ensures runs { IfOk result (λ valid. IsRunnable bytes.now valid) }
    ensures refused { IfErr result (λ fault. IsNotRun bytes.now fault) }
{
    match check_bytes(alloc, bytes) {
        Ok(valid) => match runnable(&valid) {
            Ok(()) => Ok(valid),
            Err(outside) => Err(RunFault::Outside(outside)),
        },
        Err(fault) => Err(RunFault::Check(fault)),
    }
}
