//! Bytes that spell a valid module.
ghost use Rattle.std.specs.Prelude.{IfOk, IfErr};
ghost use Rattle.wasm_lang_valid.specs.Bytes.{IsValidBytes};
ghost use Rattle.cmd_check_wasm.specs.Verdicts.{IsRefused};

use crate::fault::{CheckFault, of_binary, of_invalid};
use std::alloc::Global;
use wasm_binary::read;
use wasm_validate::{Valid, validate};

/// The valid module that the bytes spell.
pub fn check_bytes<'a>(alloc: Global, bytes: &'a [u8]) -> Result<Valid<'a>, CheckFault>
    ensures valid { IfOk result (λ valid. IsValidBytes bytes.now valid) }
    ensures refused { IfErr result (λ fault. IsRefused bytes.now fault) }
{
    match read(alloc, bytes) {
        Ok(module) => match validate(alloc, module) {
            Ok(valid) => Ok(valid),
            Err(invalid) => Err(of_invalid(invalid)),
        },
        Err(fault) => Err(of_binary(fault)),
    }
}
