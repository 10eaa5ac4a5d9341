// The rules on the items of a module, one item at a time.

ghost use Rattle.std.specs.Prelude.{◌≡◌, map, length, slice_get, nat_lt, None};
ghost use Rattle.std.specs.Option.{option_map};
ghost use Rattle.wasm_lang.specs.Modules.{WasmModule};
ghost use Rattle.wasm_tree.specs.Views.{instr_of, type_of, element_of, segment_of, module_of};
ghost use Rattle.wasm_lang_valid.specs.declared.rule.Rule.TheVariants.{NoType};
ghost use Rattle.wasm_lang_valid.specs.ModuleRules;
ghost use Rattle.wasm_lang_valid.specs.ModuleRules.{meets};
ghost use Rattle.wasm_validate.specs.Facts.{FactsOf};

use crate::facts::Facts;
use wasm_lang::{ExportKind, GlobalType, Limits, ValType};
use wasm_lang_valid::Rule;
use wasm_tree::{Element, FuncType, Instr, Module, Segment};

// The rule, unless it is kept; then what the rules of higher numbers say.
pub fn first_of(kept: bool, rule: Rule, others: Option<Rule>) -> Option<Rule>
    ensures { result ≡ meets kept rule others }
{
    if kept { others } else { Some(rule) }
}

/// Of a type.
pub fn type_rule(function_type: &FuncType) -> Option<Rule>
    ensures { result ≡ ModuleRules.type_rule (type_of function_type.now) }
{
    first_of(function_type.results.len() <= 1, Rule::TwoResults, None)
}

fn is_ordered(limits: Limits) -> bool
    ensures { result ≡ ModuleRules.is_ordered limits }
{
    match limits.max {
        None => true,
        Some(most) => limits.min <= most,
    }
}

fn has_pages(limits: Limits) -> bool
    ensures { result ≡ ModuleRules.has_pages limits }
{
    limits.min <= 65536
        && match limits.max {
            None => true,
            Some(most) => most <= 65536,
        }
}

/// Of a table, where there is one before it or not.
pub fn table_rule(limits: Limits, before: bool) -> Option<Rule>
    ensures { result ≡ ModuleRules.table_rule limits before }
{
    first_of(
        is_ordered(limits),
        Rule::Size,
        first_of(!before, Rule::SecondTable, None),
    )
}

/// Of a memory, where there is one before it or not.
pub fn memory_rule(limits: Limits, before: bool) -> Option<Rule>
    ensures { result ≡ ModuleRules.memory_rule limits before }
{
    first_of(
        is_ordered(limits) && has_pages(limits),
        Rule::Size,
        first_of(!before, Rule::SecondMemory, None),
    )
}

/// Of the number of a type, among so many.
pub fn number_rule(types: &[FuncType], number: u32) -> Option<Rule>
    ensures { result ≡ meets (nat_lt number (length (map type_of types.now))) NoType None }
{
    first_of((number as usize) < types.len(), Rule::NoType, None)
}

fn is_constant(kind: ValType, global: Option<GlobalType>) -> bool
    ensures { result ≡ ModuleRules.is_constant kind global }
{
    match global {
        None => false,
        Some(global) => !global.mutable && kind == global.kind,
    }
}

// The type of an imported global.
fn imported_global(module: &Module<'_>, facts: &Facts, x: u32) -> Option<GlobalType>
    requires { FactsOf facts.now (module_of «module».now) }
    ensures { result ≡ slice_get (ModuleRules.imported_globals (module_of «module».now).imports) x }
{
    let x = x as usize;
    if x < facts.imported_globals {
        facts.globals.get(x).copied()
    } else {
        None
    }
}

// Of one instruction that gives a first value or an offset.
fn value_rule(module: &Module<'_>, facts: &Facts, kind: ValType, instr: &Instr) -> Option<Rule>
    requires { FactsOf facts.now (module_of «module».now) }
    ensures { result ≡ ModuleRules.value_rule (module_of «module».now) kind (instr_of instr.now) }
{
    match instr {
        Instr::Const32(_) => first_of(kind == ValType::I32, Rule::Initializer, None),
        Instr::Const64(_) => first_of(kind == ValType::I64, Rule::Initializer, None),
        Instr::GlobalGet(x) => first_of(
            (*x as usize) < facts.globals.len(),
            Rule::NoGlobal,
            first_of(
                is_constant(kind, imported_global(module, facts, *x)),
                Rule::Initializer,
                None,
            ),
        ),
        _ => Some(Rule::Initializer),
    }
}

fn is_end(instr: &Instr) -> bool
    ensures { result ≡ ModuleRules.is_end (instr_of instr.now) }
{
    matches!(instr, Instr::End)
}

/// Of an expression that gives a first value or an offset.
pub fn init_rule(module: &Module<'_>, facts: &Facts, kind: ValType, init: &[Instr]) -> Option<Rule>
    requires { FactsOf facts.now (module_of «module».now) }
    ensures { result ≡ ModuleRules.init_rule (module_of «module».now) kind (map instr_of init.now) }
{
    if init.len() == 2 {
        let value = value_rule(module, facts, kind, &init[0]);
        first_of(is_end(&init[1]), Rule::Initializer, value)
    } else {
        Some(Rule::Initializer)
    }
}

/// Of what is exported, and then what the rules of higher numbers say.
pub fn exported_rule(facts: &Facts, kind: ExportKind, others: Option<Rule>) -> Option<Rule>
    ensures { (m : WasmModule) → FactsOf facts.now m → result ≡ ModuleRules.exported_rule m kind others }
{
    match kind {
        ExportKind::Func(f) => first_of(
            (f as usize) < facts.functions.len(),
            Rule::NoFunction,
            others,
        ),
        ExportKind::Table(t) => first_of(t == 0 && facts.table, Rule::NoTable, others),
        ExportKind::Memory(t) => first_of(t == 0 && facts.memory, Rule::NoMemory, others),
        ExportKind::Global(g) => first_of(
            (g as usize) < facts.globals.len(),
            Rule::NoGlobal,
            others,
        ),
    }
}

// Whether a function of this type can be the start function.
fn is_start(function_type: Option<&FuncType>) -> bool
    ensures { result ≡ ModuleRules.is_start (option_map (λ t. type_of t.now) function_type.entry) }
{
    match function_type {
        None => false,
        Some(t) => t.params.is_empty() && t.results.is_empty(),
    }
}

// The type of a function.
fn type_of_function<'t>(module: &'t Module<'_>, facts: &Facts, f: u32) -> Option<&'t FuncType>
    requires { FactsOf facts.now (module_of «module».now) }
    ensures { option_map (λ t. type_of t.now) result ≡ ModuleRules.type_of_function (module_of «module».now) f }
{
    match facts.functions.get(f as usize) {
        None => None,
        Some(t) => module.types.get(*t as usize),
    }
}

/// Of the start function.
pub fn start_rule(module: &Module<'_>, facts: &Facts, f: u32) -> Option<Rule>
    requires { FactsOf facts.now (module_of «module».now) }
    ensures { result ≡ ModuleRules.start_rule (module_of «module».now) f }
{
    let starts = is_start(type_of_function(module, facts, f));
    let typed = first_of(starts, Rule::StartType, None);
    first_of(
        (f as usize) < facts.functions.len(),
        Rule::NoFunction,
        typed,
    )
}

fn are_functions(facts: &Facts, functions: &[u32]) -> bool
    ensures { (m : WasmModule) → FactsOf facts.now m → result ≡ ModuleRules.are_functions m functions.now }
{
    for f in functions {
        if (*f as usize) >= facts.functions.len() {
            return false;
        }
    }
    true
}

/// Of a segment of a table.
pub fn element_rule(module: &Module<'_>, facts: &Facts, element: &Element) -> Option<Rule>
    requires { FactsOf facts.now (module_of «module».now) }
    ensures { result ≡ ModuleRules.element_rule (module_of «module».now) (element_of element.now) }
{
    let offset = init_rule(module, facts, ValType::I32, element.offset.as_slice());
    first_of(
        are_functions(facts, element.functions.as_slice()),
        Rule::NoFunction,
        first_of(element.table == 0 && facts.table, Rule::NoTable, offset),
    )
}

/// Of a segment of a memory.
pub fn segment_rule(module: &Module<'_>, facts: &Facts, segment: &Segment<'_>) -> Option<Rule>
    requires { FactsOf facts.now (module_of «module».now) }
    ensures { result ≡ ModuleRules.segment_rule (module_of «module».now) (segment_of segment.now) }
{
    let offset = init_rule(module, facts, ValType::I32, segment.offset.as_slice());
    first_of(segment.memory == 0 && facts.memory, Rule::NoMemory, offset)
}
