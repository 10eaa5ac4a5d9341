// Signatures, each once.
ghost use Rattle.std.specs.Prelude.{◌≡◌, ◌++◌, [], ◌∷◌, List, IfOk, map};
ghost use Rattle.asm_tree.specs.Views.{module_view, function_view};
ghost use Rattle.asm_lang_valid.specs.Scope as scopes;
ghost use Rattle.asm2wasm_translation.specs.Numbers.{each_once, place_of_type};
ghost use Rattle.asm2wasm_numbers.specs.Typed.{IsTyped};
ghost use Rattle.asm2wasm_numbers.specs.Signatures.{asked, signature_said, said};

use crate::calls::CallNumbers;
use asm_tree::Function;
use asm_validate::{Checked, ForeignCall};
use asm_validate_exprs::signature_of;
use indexmap::IndexSet;
use key_hashes::KeyHashes;
use std::alloc::{AllocError, Global};

/// How many arguments a function takes, all of them ints, and whether it has a result, which is signed.
#[derive(Clone, Copy, PartialEq, Eq, Hash, Debug)]
pub struct Signature {
    pub params: usize,
    pub result: bool,
}

/// The calls of foreign functions, and the types of these and of a module's functions.
#[derive(Drop)]
pub struct ModuleTypes<'a> {
    pub calls: CallNumbers<'a>,
    pub signatures: IndexSet<Signature>,
}

impl<'a> ModuleTypes<'a> {
    /// Those of an accepted module, with these hashers for a map of the calls.
    pub fn new(
        alloc: Global,
        checked: &'a Checked,
        hashes: KeyHashes,
    ) -> Result<ModuleTypes<'a>, AllocError>
        ensures { IfOk result (λ types. IsTyped (module_view checked.now) types) }
    {
        let foreign = checked.foreign_calls();
        let module = checked.module();
        let own = module.functions.as_slice();
        let calls = CallNumbers::new(alloc, foreign, hashes)?;
        let signatures = signatures_of(alloc, foreign, own)?;
        Ok(ModuleTypes { calls, signatures })
    }
}

// Those of foreign functions and then those of functions, each once, in order of first use.
fn signatures_of(
    alloc: Global,
    calls: &[ForeignCall],
    functions: &[Function],
) -> Result<IndexSet<Signature>, AllocError>
    ensures { IfOk result (λ signatures. said signatures ≡ each_once [] (map asked calls.now ++ map scopes.signature_of (map function_view functions.now))) }
{
    let mut signatures = IndexSet::new(alloc);
    add_calls(&mut signatures, calls)?;
    add_functions(&mut signatures, functions)?;
    Ok(signatures)
}

/// The place of a signature, or how many there are where it isn't one of these.
pub fn place_of(signatures: &IndexSet<Signature>, signature: Signature) -> usize
    ensures { result ≡ place_of_type (signature_said signature) (said signatures.now) }
{
    match signatures.get_index_of(&signature) {
        Some(place) => place,
        None => signatures.len(),
    }
}

fn add_calls(signatures: &mut IndexSet<Signature>, calls: &[ForeignCall]) -> Result<(), AllocError>
    ensures { IfOk result (λ _. (rest : List scopes.Signature) → each_once (said signatures.old) (map asked calls.now ++ rest) ≡ each_once (said signatures.new) rest) }
{
    for call in calls {
        let signature = Signature {
            params: call.params as usize,
            result: call.result,
        };
        add(signatures, signature)?;
    }
    Ok(())
}

fn add_functions(
    signatures: &mut IndexSet<Signature>,
    functions: &[Function],
) -> Result<(), AllocError>
    ensures { IfOk result (λ _. (rest : List scopes.Signature) → each_once (said signatures.old) (map scopes.signature_of (map function_view functions.now) ++ rest) ≡ each_once (said signatures.new) rest) }
{
    for function in functions {
        let signature = signature_of(function);
        let signature = Signature {
            params: signature.params,
            result: signature.result,
        };
        add(signatures, signature)?;
    }
    Ok(())
}

fn add(signatures: &mut IndexSet<Signature>, signature: Signature) -> Result<(), AllocError>
    ensures { IfOk result (λ _. (rest : List scopes.Signature) → each_once (said signatures.old) (signature_said signature ∷ rest) ≡ each_once (said signatures.new) rest) }
{
    signatures.insert(signature)?;
    Ok(())
}
