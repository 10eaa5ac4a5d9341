// The linked module as a valid one.

ghost use Rattle.std.specs.Prelude.{◌≡◌, None, IfOk, MatchResult};
ghost use Rattle.wasm_lang.specs.Limits.{IsWithinReader};
ghost use Rattle.wasm_lang.specs.Shape.{IsShaped, IsWritable};
ghost use Rattle.wasm_tree.specs.Views.{module_of};
ghost use Rattle.wasm_lang_valid.specs.Runnable.{not_runnable};
ghost use Rattle.wasm_lang_valid.specs.Validity.{IsValidModule};
ghost use Rattle.wasm_link_lang.specs.Allowed.{IsAllowed, IsBounded};
ghost use Rattle.wasm_link_lang.specs.Refusal as plain;
ghost use Rattle.wasm_link_code.specs.Linked.{linked};
ghost use Rattle.wasm_link_rows.specs.Faults.{IsLinkFault};
ghost use Rattle.wasm_link_laws_writable.specs.Laws.{IsSpelledShort};

use crate::linking::linked_with;
use crate::standing::linked_stands;
use std::alloc::{AllocError, Global};
use wasm_lang_valid::refusal_laws;
use wasm_link_bind::Numbers;
use wasm_link_laws_modules::limits;
use wasm_link_laws_simulation::sessions;
use wasm_link_laws_writable::writable;
use wasm_link_rows::{LinkFault, check};
use wasm_tree::Module;
use wasm_validate::{Invalid, Valid, validate};

/// The valid module that two valid modules are linked to; or the first row that keeps them apart. The validator passes over
/// it once, and never refuses it.
///
/// It imports what neither module exports to the other, and exports what both do. A script that fits it fits the pair, or neither
/// from the same line on; then each shows what the other does, within six reductions for one of the pair and two more. Within a reader's limits it is where both are, and the binary format has room for it where both are
/// spelled in at most 16 MiB. It can be run.
pub fn link<'a>(
    alloc: Global,
    first: &'a Valid<'a>,
    second: &'a Valid<'a>,
) -> Result<Valid<'a>, LinkFault>
    ensures exactly { MatchResult result (λ valid. (plain.refusal (record { first = first.now; second = second.now }) ≡ None) × (valid ≡ linked (record { first = first.now; second = second.now }))) (IsLinkFault (record { first = first.now; second = second.now })) }
    ensures allowed { IfOk result (λ valid. IsAllowed (record { first = first.now; second = second.now }) valid) }
    ensures bounded { IfOk result (λ valid. IsBounded (record { first = first.now; second = second.now }) valid) }
    ensures within { IfOk result (λ valid. IsWithinReader first.now → IsWithinReader second.now → IsWithinReader valid) }
    ensures writable { IfOk result (λ valid. IsSpelledShort first.now → IsSpelledShort second.now → IsWritable valid) }
    ensures runs { IfOk result (λ valid. not_runnable valid ≡ None) }
{
    sessions();
    limits();
    writable();
    let _first = first.module();
    let _second = second.module();
    let numbers = check(alloc, first, second)?;
    let valid = valid_with(alloc, &numbers)?;
    Ok(valid)
}

// .. of a pair with its numbers.
fn valid_with<'a>(alloc: Global, numbers: &Numbers<'a>) -> Result<Valid<'a>, AllocError>
    requires first { IsValidModule numbers.now.first }
    requires second { IsValidModule numbers.now.second }
    requires first_shaped { IsShaped numbers.now.first }
    requires second_shaped { IsShaped numbers.now.second }
    requires linked { plain.refusal numbers.now ≡ None }
    ensures { IfOk result (λ valid. valid ≡ linked numbers.now) }
{
    linked_stands();
    let module = linked_with(alloc, numbers)?;
    let valid = validated(alloc, module)?;
    Ok(valid)
}

// A module that the validator doesn't refuse.
fn validated<'a>(alloc: Global, made: Module<'a>) -> Result<Valid<'a>, AllocError>
    requires shaped { IsShaped (module_of made) }
    requires valid { IsValidModule (module_of made) }
    ensures { IfOk result (λ valid. valid ≡ module_of made.entry) }
{
    refusal_laws();
    match validate(alloc, made) {
        Ok(valid) => Ok(valid),
        Err(fault) => Err(want_of_memory(fault)),
    }
}

// The one fault of a module that is valid.
fn want_of_memory(fault: Invalid) -> AllocError
    requires { fault ≡ Invalid.Memory }
{
    match fault {
        Invalid::Memory => AllocError,
        Invalid::Rule { .. } => unreachable!(),
    }
}
