// The items of the code section.

ghost use Rattle.std.specs.Prelude.{◌≡◌, ◌<◌, ◌^◌, ◌++◌, length, map, All, IfOk, MatchOption, MatchResult};
ghost use Rattle.wasm_lang.specs.Instructions.{IsExpression};
ghost use Rattle.wasm_tree.specs.Views.{body_of, instr_of, module_of, type_of};
ghost use Rattle.wasm_lang_valid.specs.Measures.{body_slots};
ghost use Rattle.wasm_lang_valid.specs.ModuleRules.{imported_functions};
ghost use Rattle.wasm_lang_valid.specs.Typing;
ghost use Rattle.wasm_lang_valid.specs.Typing.{IsValid};
ghost use Rattle.wasm_lang_valid.specs.Validity;
ghost use Rattle.wasm_lang_valid.specs.Validity.{body_context, no_type};
ghost use Rattle.wasm_validate_bodies.specs.Bodies.{IsRefusal};
ghost use Rattle.wasm_validate_bodies.specs.Scopes.{outside};
ghost use Rattle.wasm_validate.specs.Bodies.{FineBodies, IsCodeFault};
ghost use Rattle.wasm_validate.specs.Counted.{CountsOf, IsCounted};
ghost use Rattle.wasm_validate.specs.Facts.{FactsOf};
ghost use Rattle.wasm_validate.specs.Bodies;
ghost use Rattle.wasm_validate.specs.Scopes;
ghost use Rattle.std.specs.Option.{option_map};

use crate::counts::Counts;
use crate::facts::Facts;
use crate::fault::CodeFault;
use std::alloc::{AllocError, Global};
use wasm_lang::ValType;
use wasm_tree::{Body, Code, FuncType, Instr, Module};
use wasm_validate_bodies::{BodyFault, Scope, check_body, result_of};

/// Finds the first body that isn't valid, or counts of all bodies.
pub fn check_bodies(alloc: Global, module: &Module<'_>, facts: &Facts) -> Result<Counts, CodeFault>
    requires facts_of { FactsOf facts.now (module_of «module».now) }
    requires expressions { All (λ b. IsExpression b.code) (module_of «module».now).bodies }
    ensures exactly { MatchResult result (λ _. FineBodies (module_of «module».now) (length (module_of «module».now).bodies)) (IsCodeFault (module_of «module».now)) }
    ensures counts { IfOk result (λ counts. CountsOf counts (module_of «module».now) (length (module_of «module».now).bodies)) }
{
    let mut counts = Counts::new(alloc);
    for (i, body) in module.bodies.as_slice().iter().enumerate() {
        match check_code(alloc, module, facts, i, body, &mut counts) {
            Ok(()) => {}
            Err(fault) => return Err(at_body(fault, i)),
        }
    }
    Ok(counts)
}

// The fault of the body at this place.
fn at_body(fault: BodyFault, index: usize) -> CodeFault
    ensures { result ≡ Bodies.at_body fault index }
{
    match fault {
        BodyFault::Broken { rule, instruction } => CodeFault::Broken {
            index,
            rule,
            instruction,
        },
        BodyFault::Memory => CodeFault::Memory,
    }
}

// One body, which is counted where it is valid.
fn check_code(
    alloc: Global,
    module: &Module<'_>,
    facts: &Facts,
    i: usize,
    body: &Body<'_>,
    counts: &mut Counts,
) -> Result<(), BodyFault>
    requires facts_of { FactsOf facts.now (module_of «module».now) }
    requires expression { IsExpression (body_of body.now).code }
    requires place { i < 2 ^ 63 }
    ensures counts { IfOk result (λ _. IsCounted counts.old counts.new (module_of «module».now) i (body_of body.now)) }
    ensures exactly { MatchResult result (λ _. IsValid (body_context (module_of «module».now) i (body_of body.now)) (body_of body.now).code) (λ e. IsRefusal (body_context (module_of «module».now) i (body_of body.now)) (body_of body.now).code e) }
{
    match &body.code {
        Code::Own(list) => check_instrs(alloc, module, facts, i, body, list.as_slice(), counts),
        Code::Lent(_) => match body.code.instrs(alloc) {
            Ok(list) => check_instrs(alloc, module, facts, i, body, list.as_slice(), counts),
            Err(_) => Err(BodyFault::Memory),
        },
    }
}

// One body, of this code.
fn check_instrs(
    alloc: Global,
    module: &Module<'_>,
    facts: &Facts,
    i: usize,
    body: &Body<'_>,
    code: &[Instr],
    counts: &mut Counts,
) -> Result<(), BodyFault>
    requires facts_of { FactsOf facts.now (module_of «module».now) }
    requires expression { IsExpression (body_of body.now).code }
    requires code { map instr_of code.now ≡ (body_of body.now).code }
    requires place { i < 2 ^ 63 }
    ensures counts { IfOk result (λ _. IsCounted counts.old counts.new (module_of «module».now) i (body_of body.now)) }
    ensures exactly { MatchResult result (λ _. IsValid (body_context (module_of «module».now) i (body_of body.now)) (body_of body.now).code) (λ e. IsRefusal (body_context (module_of «module».now) i (body_of body.now)) (body_of body.now).code e) }
{
    let slots = check_slots(alloc, module, facts, i, body, code)?;
    let function = imported_count(module, facts) + i;
    match counts.add(alloc, module.types.as_slice(), function, slots, code) {
        Ok(()) => Ok(()),
        Err(_) => Err(BodyFault::Memory),
    }
}

// The slots of one body, of this code, where it is valid.
fn check_slots(
    alloc: Global,
    module: &Module<'_>,
    facts: &Facts,
    i: usize,
    body: &Body<'_>,
    code: &[Instr],
) -> Result<usize, BodyFault>
    requires facts_of { FactsOf facts.now (module_of «module».now) }
    requires expression { IsExpression (body_of body.now).code }
    requires code { map instr_of code.now ≡ (body_of body.now).code }
    ensures slots { IfOk result (λ n. n ≡ body_slots (module_of «module».now) i (body_of body.now)) }
    ensures exactly { MatchResult result (λ _. IsValid (body_context (module_of «module».now) i (body_of body.now)) (body_of body.now).code) (λ e. IsRefusal (body_context (module_of «module».now) i (body_of body.now)) (body_of body.now).code e) }
{
    let locals = match locals_of(alloc, own_type(module, i), body) {
        Ok(locals) => locals,
        Err(_) => return Err(BodyFault::Memory),
    };
    let scope = scope_of(module, facts, own_type(module, i), &locals);
    let peak = check_body(alloc, &scope, code)?;
    Ok(locals.len() + peak)
}

// How many functions are imported.
fn imported_count(module: &Module<'_>, facts: &Facts) -> usize
    requires { FactsOf facts.now (module_of «module».now) }
    ensures value { result ≡ length (imported_functions (module_of «module».now).imports) }
    ensures fits { result < 2 ^ 63 }
{
    facts.functions.len() - module.functions.len()
}

// The type of a function that the module defines, by its place among those.
fn own_type<'t>(module: &'t Module<'_>, i: usize) -> Option<&'t FuncType>
    ensures { MatchOption result (Validity.own_type (module_of «module».now) i ≡ no_type) (λ t. Validity.own_type (module_of «module».now) i ≡ type_of t.now) }
{
    match module.functions.get(i) {
        None => None,
        Some(t) => module.types.get(*t as usize),
    }
}

// The parameters, and then the locals.
fn locals_of(
    alloc: Global,
    own: Option<&FuncType>,
    body: &Body<'_>,
) -> Result<Vec<ValType>, AllocError>
    ensures { IfOk result (λ all. MatchOption own.entry (all.items ≡ (body_of body.now).locals) (λ t. all.items ≡ (type_of t.now).params ++ (body_of body.now).locals)) }
{
    match own {
        Some(t) => body.local_types(alloc, t.params.as_slice()),
        None => body.local_types(alloc, &[]),
    }
}

// What a body may refer to, whose function has this type and whose parameters and locals are these.
fn scope_of<'m>(
    module: &'m Module<'_>,
    facts: &'m Facts,
    own: Option<&FuncType>,
    locals: &'m [ValType],
) -> Scope<'m>
    requires { FactsOf facts.now (module_of «module».now) }
    ensures { outside result ≡ Scopes.scope_context (module_of «module».now) (option_map (λ t. type_of t.now) own.entry) locals.now }
{
    let result = match own {
        Some(t) => result_of(t),
        None => None,
    };
    Scope {
        types: module.types.as_slice(),
        functions: facts.functions.as_slice(),
        table: facts.table,
        memory: facts.memory,
        globals: facts.globals.as_slice(),
        locals,
        result,
    }
}
