// The linked module of a pair.

ghost use Rattle.std.specs.Prelude.{◌≡◌, None, IfOk, MatchResult};
ghost use Rattle.wasm_tree.specs.Views.{module_of};
ghost use Rattle.wasm_binary_write.specs.Spelling.{spelling};
ghost use Rattle.wasm_lang_valid.specs.Validity.{IsValidModule};
ghost use Rattle.wasm_link_lang.specs.Refusal as plain;
ghost use Rattle.wasm_link_code.specs.Linked.{linked};
ghost use Rattle.wasm_link_rows.specs.Faults.{IsLinkFault};

use crate::standing::made_is_linked;
use std::alloc::{AllocError, Global};
use wasm_link_bind::Numbers;
use wasm_link_rows::{LinkFault, check};
use wasm_link_sections::{made, written};
use wasm_tree::Module;
use wasm_validate::Valid;

/// The module that two valid modules are linked to, as a tree; or the first row that keeps them apart.
pub fn link_module<'a>(
    alloc: Global,
    first: &'a Valid<'a>,
    second: &'a Valid<'a>,
) -> Result<Module<'a>, LinkFault>
    ensures exactly { MatchResult result (λ m. (plain.refusal (record { first = first.now; second = second.now }) ≡ None) × (module_of m ≡ linked (record { first = first.now; second = second.now }))) (IsLinkFault (record { first = first.now; second = second.now })) }
{
    let _first = first.module();
    let _second = second.module();
    let numbers = check(alloc, first, second)?;
    let module = linked_with(alloc, &numbers)?;
    Ok(module)
}

/// .. of a pair with its numbers.
pub fn linked_with<'a>(alloc: Global, numbers: &Numbers<'a>) -> Result<Module<'a>, AllocError>
    requires first { IsValidModule numbers.now.first }
    requires second { IsValidModule numbers.now.second }
    requires linked { plain.refusal numbers.now ≡ None }
    ensures { IfOk result (λ m. module_of m ≡ linked numbers.now) }
{
    made_is_linked();
    let module = made(alloc, numbers)?;
    Ok(module)
}

/// The shortest spelling of the module that a pair is linked to, from the numbers of the pair.
pub fn written_with(alloc: Global, numbers: &Numbers<'_>) -> Result<Vec<u8>, AllocError>
    requires first { IsValidModule numbers.now.first }
    requires second { IsValidModule numbers.now.second }
    requires linked { plain.refusal numbers.now ≡ None }
    ensures { IfOk result (λ bytes. bytes.items ≡ spelling (linked numbers.now)) }
{
    made_is_linked();
    let bytes = written(alloc, numbers)?;
    Ok(bytes)
}
