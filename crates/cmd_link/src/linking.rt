//! The bytes of a second module, linked to a first.
ghost use Rattle.std.specs.Prelude.{◌≡◌, ◌≤◌, ◌^◌, None, length, IfOk, IfErr, MatchResult};
ghost use Rattle.wasm_binary_write.specs.Spelling.{spelling};
ghost use Rattle.wasm_link_lang.specs.Refusal.{refusal};
ghost use Rattle.wasm_link_code.specs.Linked.{linked};
ghost use Rattle.wasm_link_rows.specs.Faults.{IsLinkFault};
ghost use Rattle.wasm_link_laws_writable.specs.Laws.{IsSpelledShort};
ghost use Rattle.bridge_lang.specs.Job as jobs;
ghost use Rattle.bridge_lang.specs.Job.{IsJoined};
ghost use Rattle.cmd_link.specs.Joins.{IsNotJoined};

use crate::fault::{JoinFault, of_fault};
use cmd_check_wasm::check_bytes;
use std::alloc::Global;
use std::mem;
use wasm_binary_write::spelling_laws;
use wasm_link::{LinkFault, check, written_with};
use wasm_link_laws_simulation::sessions;
use wasm_link_laws_writable::writable;
use wasm_validate::Valid;

/// The shortest spelling of what a module is linked to with the module that the bytes spell.
pub fn linked_file(alloc: Global, first: &Valid<'_>, bytes: &[u8]) -> Result<Vec<u8>, JoinFault>
    requires short { IsSpelledShort first.now }
    requires length { length bytes.now ≤ 2 ^ 24 }
    ensures joined { IfOk result (λ output. IsJoined first.now bytes.now (jobs.written output.items)) }
    ensures apart { IfErr result (λ fault. IsNotJoined first.now bytes.now fault) }
{
    sessions();
    writable();
    spelling_laws();
    let second = match check_bytes(alloc, bytes) {
        Ok(second) => second,
        Err(fault) => return Err(JoinFault::Check(fault)),
    };
    let _first = first.module();
    let output = linked_bytes(alloc, first, &second);
    // The command ends soon, and the system takes the memory back faster than piece by piece.
    mem::forget(second);
    match output {
        Ok(output) => Ok(output),
        Err(fault) => Err(of_fault(fault)),
    }
}

// .. of two modules.
fn linked_bytes<'a>(
    alloc: Global,
    first: &'a Valid<'a>,
    second: &'a Valid<'a>,
) -> Result<Vec<u8>, LinkFault>
    ensures { MatchResult result (λ output. (refusal (record { first = first.now; second = second.now }) ≡ None) × (output.items ≡ spelling (linked (record { first = first.now; second = second.now })))) (IsLinkFault (record { first = first.now; second = second.now })) }
{
    let _first = first.module();
    let _second = second.module();
    let numbers = check(alloc, first, second)?;
    let output = written_with(alloc, &numbers)?;
    Ok(output)
}
