//! The memory of the source, and which helpers it asks for.
ghost use Rattle.std.specs.Prelude.{◌≡◌, None, map, IfOk};
ghost use Rattle.wasm_tree.specs.Views.{import_of, module_of};
ghost use Rattle.wasm_lang_valid.specs.ModuleRules as rules;
ghost use Rattle.wasm_lang_valid.specs.Profile.{outside_profile};
ghost use Rattle.wasm2js_needs.specs.Needs.{needs_for};
ghost use Rattle.wasm2js_memory_helpers.specs.Choices.{memory_of};

use std::alloc::{AllocError, Global};
use wasm_lang::ImportKind;
use wasm_profile::memory_bytes;
use wasm_tree::{Import, Module};
use wasm_validate::Valid;
use wasm2js_needs::{Needs, needs_of};

/// How many bytes the memory has, if there is one.
#[tactic(auto, using(crate::proofs::Pages::few))]
pub(crate) fn memory(valid: &Valid<'_>) -> Option<u32>
    requires { outside_profile valid.now ≡ None }
    ensures { result ≡ memory_of valid.now }
{
    let module = valid.module();
    if has_memory(module) {
        Some(memory_bytes(module) as u32)
    } else {
        None
    }
}

fn has_memory(module: &Module<'_>) -> bool
    ensures { result ≡ rules.has_memory (module_of «module».now) }
{
    imports_memory(module.imports.as_slice()) || !module.memories.is_empty()
}

fn imports_memory(imports: &[Import<'_>]) -> bool
    ensures { result ≡ rules.imports_memory (map import_of imports.now) }
{
    for import in imports {
        if let ImportKind::Memory(_) = import.kind {
            return true;
        }
    }
    false
}

/// Which helpers the source asks for.
pub(crate) fn needs(alloc: Global, valid: &Valid<'_>) -> Result<Needs, AllocError>
    ensures { IfOk result (λ needs. needs ≡ needs_for valid.now) }
{
    let module = valid.module();
    needs_of(alloc, module)
}
