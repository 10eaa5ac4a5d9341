//! Accepted modules.

ghost use Rattle.std.specs.Prelude.{◌≡◌, ◌<◌, ◌^◌, length, map, IfOk, MatchResult, slice_get};
ghost use Rattle.std.specs.Option.{option_map};
ghost use Rattle.asm_tree.specs.Views.{module_view, function_view, texts_view};
ghost use Rattle.asm_lang.specs.Heights.{IsWellFormed};
ghost use Rattle.asm_lang_valid.specs.LimitRows as limits;
ghost use Rattle.asm_lang_valid.specs.Refusal as typing;
ghost use Rattle.asm_lang_valid.specs.Refusal.{IsAccepted};
ghost use Rattle.asm_lang_valid.specs.Rows.{module_count};
ghost use Rattle.asm_lang_valid.specs.Scope as scopes;
ghost use Rattle.asm_validate_facts.specs.Numbers.{export_said};
ghost use Rattle.asm_validate_limits.specs.Called.{EachIsFirst, foreign_view};
ghost use Rattle.asm_validate.specs.Refusals.{IsRefused};
ghost use Rattle.asm_validate.specs.Signatures.{signature_said};

use crate::phases::check_phases;
use asm_tree::{Function, Module};
use asm_validate_exprs::signature_of;
use asm_validate_facts::{ExportOf, Facts, facts_of};
use asm_validate_limits::ForeignCall;
use asm_validate_names::AsmRefusal;
use asm_validate_nodes::node_count;
use sem_words::{List, Text};
use std::alloc::Global;
use std::marker::Model;

/// How many arguments a function takes, all of them ints, and whether it has a result, which is signed.
#[derive(Clone, Copy, PartialEq, Eq, Debug)]
pub struct Signature {
    pub params: u32,
    pub result: bool,
}

/// A well-formed module that is accepted. Its contracts see the module itself.
#[derive(Drop)]
pub struct Checked {
    module: Module,
    facts: Facts,
    foreign_calls: List<ForeignCall>,
}

impl Model for Checked {
    ghost use Rattle.std.specs.Prelude.{◌≡◌};
    ghost use Rattle.std.specs.Coded.{codes};
    ghost use Rattle.asm_tree.specs.declared.tree.Module.{Module as Tree};
    ghost use Rattle.asm_tree.specs.contracts.tree.Expr as exprs;
    ghost use Rattle.asm_tree.specs.contracts.tree.Stmt as stmts;
    ghost use Rattle.asm_tree.specs.Views.{module_view};
    ghost use Rattle.asm_lang.specs.Heights.{IsWellFormed};
    ghost use Rattle.asm_lang_valid.specs.LimitRows as limits;
    ghost use Rattle.asm_lang_valid.specs.Refusal.{IsAccepted};
    ghost use Rattle.asm_validate_facts.specs.FactsOf.{FactsOf};
    ghost use Rattle.sem_words.specs.Lists.{list_items};
    ghost use Rattle.asm_validate_limits.specs.Called.{EachIsFirst, foreign_list};

    ghost Value = { Tree };

    ghost coded = { Prim.hlevel (codes, exprs.the_row.coded, stmts.the_row.coded) };

    ghost view = { λ c. c.«module» };

    ghost invariant = { λ c. IsWellFormed (module_view c.«module») × IsAccepted (module_view c.«module») × FactsOf c.facts (module_view c.«module») × (foreign_list (module_view c.«module») c.foreign_calls ≡ limits.foreign_calls (module_view c.«module»)) × EachIsFirst (module_view c.«module») (list_items c.foreign_calls) };
}

/// Accepts a well-formed module, or refuses it for the first node that breaks a rule of names, or else of types, or else
/// for the first that passes a limit, in text order with the parts of an expression before the whole. Of two rules that
/// one node breaks the first counts. A module of 2^64 nodes, which no memory has room for, is refused for want of memory.
pub fn validate(alloc: Global, module: Module) -> Result<Checked, AsmRefusal>
    requires { IsWellFormed (module_view «module») }
    ensures given { IfOk result (λ checked. checked ≡ «module») }
    ensures exactly { MatchResult result (λ _. IsAccepted (module_view «module»)) (IsRefused (module_view «module»)) }
{
    match node_count(&module) {
        None => Err(AsmRefusal::Memory),
        Some(_) => judge(alloc, module),
    }
}

// .. a module whose nodes have numbers of 64 bits.
fn judge(alloc: Global, module: Module) -> Result<Checked, AsmRefusal>
    requires well_formed { IsWellFormed (module_view «module») }
    requires room { module_count (module_view «module») < 2 ^ 64 }
    ensures given { IfOk result (λ checked. checked ≡ «module») }
    ensures exactly { MatchResult result (λ _. IsAccepted (module_view «module»)) (IsRefused (module_view «module»)) }
{
    let foreign_calls = check_phases(alloc, &module)?;
    let facts = facts_of(alloc, &module)?;
    Ok(Checked {
        module,
        facts,
        foreign_calls,
    })
}

// The signature of a function with few parameters.
fn narrow_signature(function: &Function) -> Signature
    requires { length (function_view function.now).params < 2 ^ 32 }
    ensures { signature_said result ≡ scopes.signature_of (function_view function.now) }
{
    let signature = signature_of(function);
    Signature {
        params: signature.params as u32,
        result: signature.result,
    }
}

impl Checked {
    /// The module.
    pub fn module(&self) -> &Module
        ensures given { result.now ≡ self.now }
        ensures well_formed { IsWellFormed (module_view self.now) }
        ensures accepted { IsAccepted (module_view self.now) }
    {
        &self.module
    }

    /// The signature of a function by its number, or None past the last one.
    pub fn signature(&self, function: usize) -> Option<Signature>
        ensures { option_map signature_said result ≡ option_map scopes.signature_of (slice_get (module_view self.now).functions function) }
    {
        match self.module.functions.get(function) {
            None => None,
            Some(function) => Some(narrow_signature(function)),
        }
    }

    /// The exports with the numbers of their functions, in text order.
    pub fn exports(&self) -> &[ExportOf]
        ensures { map export_said result.now ≡ typing.exported_from (module_view self.now) (module_view self.now).exports }
    {
        self.facts.exports.as_slice()
    }

    /// The calls of foreign functions in order of first use, each name once for each number of arguments with a result
    /// and without.
    pub fn foreign_calls(&self) -> &[ForeignCall]
        ensures calls { map (foreign_view (module_view self.now)) result.now ≡ limits.foreign_calls (module_view self.now) }
        ensures first { EachIsFirst (module_view self.now) result.now }
    {
        self.foreign_calls.as_slice()
    }

    /// The foreign members that are imported as ints, each once, in order of first declaration.
    pub fn foreign_globals(&self) -> &[Text]
        ensures { texts_view result.now ≡ typing.foreign_globals (module_view self.now) }
    {
        self.facts.foreign_globals.as_slice()
    }

    /// Whether an integer view is declared.
    pub fn has_heap(&self) -> bool
        ensures { result ≡ typing.has_heap (module_view self.now) }
    {
        self.facts.has_heap
    }
}
