// Valid modules.

ghost use Rattle.std.specs.Prelude.{◌≡◌, ◌≤◌, ◌^◌, length, Some, None, IfOk, MatchOption, MatchResult};
ghost use Rattle.wasm_lang.specs.Modules.{WasmModule};
ghost use Rattle.wasm_lang.specs.Shape.{IsShaped};
ghost use Rattle.wasm_tree.specs.Views.{module_of, type_of};
ghost use Rattle.wasm_lang_valid.specs.Measures.{measures_of as spec_measures};
ghost use Rattle.wasm_lang_valid.specs.ModuleRules.{function_types, type_of_function};
ghost use Rattle.wasm_lang_valid.specs.Validity.{IsValidModule};
ghost use Rattle.wasm_validate.specs.Counted.{said};
ghost use Rattle.wasm_validate.specs.Facts.{FactsOf};
ghost use Rattle.wasm_validate.specs.Refusals.{IsInvalid};

use crate::facts::{Facts, facts_of};
use crate::fault::Invalid;
use crate::measures::{Measures, measures_of};
use crate::valid::check_module;
use std::alloc::Global;
use std::marker::Model;
use wasm_lang_valid::module_laws;
use wasm_tree::{FuncType, Module};

/// A valid module (WebAssembly Core 1.0, section 3.4.10), which is shaped, with a body for each function. Its contracts see
/// the module that it stands for.
#[derive(Drop)]
pub struct Valid<'a> {
    module: Module<'a>,
    facts: Facts,
    measures: Measures,
}

impl<'a> Model for Valid<'a> {
    ghost Value = { WasmModule };

    ghost view = { λ v. module_of v.«module» };

    ghost invariant = { λ v. IsValidModule (module_of v.«module») × IsShaped (module_of v.«module») × FactsOf v.facts (module_of v.«module») × (said v.measures ≡ spec_measures (module_of v.«module»)) × (v.measures.call_types ≤ 2 ^ 32) };
}

/// Validates a module, which has to be shaped as every module that was read is.
///
/// A refusal has the rule that is broken first, by section, item and instruction.
pub fn validate<'a>(alloc: Global, module: Module<'a>) -> Result<Valid<'a>, Invalid>
    requires { IsShaped (module_of «module») }
    ensures given { IfOk result (λ valid. valid ≡ module_of «module».entry) }
    ensures exactly { MatchResult result (λ _. IsValidModule (module_of «module».entry)) (IsInvalid (module_of «module».entry)) }
{
    let facts = match facts_of(alloc, &module) {
        Ok(facts) => facts,
        Err(_) => return Err(Invalid::Memory),
    };
    let counts = check_module(alloc, &module, &facts)?;
    match measures_of(alloc, &module, &counts) {
        Ok(measures) => Ok(Valid {
            module,
            facts,
            measures,
        }),
        Err(_) => Err(Invalid::Memory),
    }
}

impl<'a> Valid<'a> {
    /// The module.
    pub fn module(&self) -> &Module<'a>
        ensures given { module_of result.now ≡ self.now }
        ensures valid { IsValidModule self.now }
        ensures shaped { IsShaped self.now }
    {
        &self.module
    }

    /// The type of a function, by its number, the imported ones first. It is None exactly past the last.
    pub fn func_type(&self, function: u32) -> Option<&FuncType>
        ensures { MatchOption result (length (function_types self.now) ≤ function) (λ t. type_of_function self.now function ≡ Some (type_of t.now)) }
    {
        module_laws();
        self.numbered(function)
    }

    /// What is counted of the module. It takes no memory.
    pub fn measures(&self) -> Measures
        ensures exactly { said result ≡ spec_measures self.now }
        ensures few { result.call_types ≤ 2 ^ 32 }
    {
        self.measures
    }

    // The type of a function, where its number and that of its type exist.
    fn numbered(&self, function: u32) -> Option<&FuncType>
        ensures valid { IsValidModule self.now }
        ensures found { MatchOption result (type_of_function self.now function ≡ None) (λ t. type_of_function self.now function ≡ Some (type_of t.now)) }
    {
        match self.facts.functions.get(function as usize) {
            None => None,
            Some(t) => self.module.types.get(*t as usize),
        }
    }
}
