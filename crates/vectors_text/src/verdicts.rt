//! Texts that are accepted, with what is told of their modules, and texts that are refused.
use crate::pieces::{Part, joined};
use crate::rows::holds;
use asm_lang_valid::Rule;
use asm_validate::{Checked, ExportOf, ForeignCall, Signature};
use cmd_check_asm::{AsmRow, CheckFault, check_text, counts};
use std::alloc::Global;
use std::process::Abort;

mod limits;

const WHOLE: &[u8] = b"function m(stdlib,foreign,heap){\"use asm\";\
var a=foreign.a|0,f=foreign.f,b=foreign.b|0,imul=stdlib.Math.imul,H=new stdlib.Int32Array(heap),c=foreign.a|0;\
function g(i){i=i|0;f(i|0);H[i>>2]=f(i|0,1)|0;f(a|0);return imul(i,b)|0;}\
function h(){c=1;}\
var t=[g,g];\
return{run:h,g:g};}";

/// Why the text says no accepted module, where it says none.
fn fault_of(alloc: Global, text: &[u8]) -> Option<CheckFault> {
    match counts(alloc, text) {
        Ok(_) => None,
        Err(fault) => Some(fault),
    }
}

/// The text of these parts says no accepted module, by this row and at this place, or says one.
fn is_told(alloc: Global, parts: &[Part<'_>], refusal: Option<(AsmRow, u64)>) -> bool {
    let Ok(text) = joined(alloc, parts) else {
        return false;
    };
    match (fault_of(alloc, &text), refusal) {
        (Some(CheckFault::Refused { row, at }), Some((broken, place))) => {
            row == broken && at == place
        }
        (None, None) => true,
        _ => false,
    }
}

/// A function's number, and how many parameters it has and whether it has a result, where there is such a function.
static SIGNATURES: [(usize, Option<Signature>); 3] = [
    (
        0,
        Some(Signature {
            params: 1,
            result: true,
        }),
    ),
    (
        1,
        Some(Signature {
            params: 0,
            result: false,
        }),
    ),
    (2, None),
];

fn is_signature(found: Option<Signature>, wanted: Option<Signature>) -> bool {
    match (found, wanted) {
        (Some(found), Some(wanted)) => found == wanted,
        (None, None) => true,
        _ => false,
    }
}

fn is_export(export: &ExportOf, key: &[u8], function: u32) -> bool {
    export.key.as_bytes() == key && export.function == function
}

fn are_exports(module: &Checked) -> bool {
    match module.exports() {
        [first, second] => is_export(first, b"run", 1) && is_export(second, b"g", 0),
        _ => false,
    }
}

fn is_call(
    module: &Checked,
    call: &ForeignCall,
    name: &[u8],
    params: u32,
    has_result: bool,
) -> bool {
    call.name(module.module()) == name && call.params == params && call.result == has_result
}

fn are_calls(module: &Checked) -> bool {
    match module.foreign_calls() {
        [first, second] => {
            is_call(module, first, b"f", 1, false) && is_call(module, second, b"f", 2, true)
        }
        _ => false,
    }
}

/// The foreign globals have these names; `c` is the member `a` once more.
fn are_globals(module: &Checked) -> bool {
    match module.foreign_globals() {
        [first, second] => {
            first.as_bytes() == b"a".as_slice() && second.as_bytes() == b"b".as_slice()
        }
        _ => false,
    }
}

/// What an accepted module tells is `WHOLE`'s.
fn are_facts(rt: &impl Abort, module: &Checked) {
    for (number, (function, wanted)) in SIGNATURES.iter().enumerate() {
        let found = module.signature(*function);
        holds(rt, number, is_signature(found, *wanted));
    }
    holds(rt, 3, module.has_heap());
    holds(rt, 4, module.module().functions.len() == 2);
    holds(rt, 5, are_exports(module));
    holds(rt, 6, are_calls(module));
    holds(rt, 7, are_globals(module));
}

#[test]
fn an_accepted_module_tells_its_facts(rt: HostRuntime) {
    match check_text(rt.alloc(), WHOLE) {
        Ok(module) => are_facts(&rt, &module),
        Err(_) => holds(&rt, 8, false),
    }
}

fn has_ints_alone(module: &Checked) -> bool {
    !module.has_heap() && module.foreign_calls().is_empty() && module.foreign_globals().is_empty()
}

#[test]
fn a_text_of_ints_alone_has_no_heap(rt: HostRuntime) {
    match check_text(rt.alloc(), b"function(){'use asm';function f(){}return f}") {
        Ok(module) => holds(&rt, 0, has_ints_alone(&module)),
        Err(_) => holds(&rt, 1, false),
    }
}

#[test]
fn counts_are_told(rt: HostRuntime) {
    let told = b"asm.js functions 2 tables 1 exports 2 foreign 2\n";
    match counts(rt.alloc(), WHOLE) {
        Ok(line) => holds(&rt, 0, line.as_slice() == told.as_slice()),
        Err(_) => holds(&rt, 1, false),
    }
}

/// The text before the place of the fault, the text from it on, and what is broken.
type Row = (&'static [u8], &'static [u8], AsmRow);

/// A module's heading, a foreign function and a view of bytes.
pub(crate) const FRONT: &[u8] =
    b"function m(stdlib,foreign,heap){'use asm';var u=foreign.u,H=new stdlib.Uint8Array(heap);";

static ROWS: [Row; 9] = [
    (
        b"function f(){return 1.5;y",
        b"=1;}return f}",
        AsmRow::Rule(Rule::UnknownName),
    ),
    (
        b"function f(){return ",
        b"1.5;}return f}",
        AsmRow::Rule(Rule::OutsideInteger),
    ),
    (
        b"function f(i){i=i|0;return ",
        b"H[i+1]|0;}return f}",
        AsmRow::Rule(Rule::BareByteIndex),
    ),
    (
        b"function f(){return ",
        b"4294967296;}return f}",
        AsmRow::Rule(Rule::LiteralRange),
    ),
    (
        b"function f(){f(",
        b"u())|0;}return f}",
        AsmRow::Rule(Rule::CallShape),
    ),
    (
        b"function f(){}var ",
        b"t=[f,f,f];return f}",
        AsmRow::Rule(Rule::TableSize),
    ),
    (
        b"function f(){",
        b"break;}return f}",
        AsmRow::Rule(Rule::Label),
    ),
    (
        b"function f(i){i=i|0;return ",
        b"-0;}return f}",
        AsmRow::LiteralForm,
    ),
    (b"function f(){", b"default:;}return f}", AsmRow::Grammar),
];

/// Each row's text is refused for what it breaks, where its second part begins.
#[test]
fn the_first_fault_is_told_with_its_place(rt: HostRuntime) {
    for (number, (front, back, broken)) in ROWS.iter().enumerate() {
        let parts: [Part<'_>; 3] = [(FRONT, b"", 0), (*front, b"", 0), (*back, b"", 0)];
        let at = (FRONT.len() as u64).saturating_add(front.len() as u64);
        holds(
            &rt,
            number,
            is_told(rt.alloc(), &parts, Some((*broken, at))),
        );
    }
}

/// A whole text, what it breaks, and the offset.
type Refusal = (&'static [u8], AsmRow, u64);

/// Members of names that aren't the module's second parameter.
static MEMBERS: [Refusal; 3] = [
    (
        b"function m(s,e){\"use asm\";var y=e.a;var x=s.a|0;function f(){return 0;}return f;}",
        AsmRow::Rule(Rule::WrongKind),
        40,
    ),
    (
        b"function m(s,e){\"use asm\";var x=s.__proto__|0;function f(){return 0;}return f;}",
        AsmRow::Rule(Rule::WrongKind),
        30,
    ),
    (
        b"function m(s,e){\"use asm\";var x=+q.__proto__;function f(){return 0;}return f;}",
        AsmRow::Rule(Rule::UnknownName),
        30,
    ),
];

#[test]
fn other_objects_have_no_foreign_members(rt: HostRuntime) {
    for (number, (text, broken, at)) in MEMBERS.iter().enumerate() {
        let parts: [Part<'_>; 1] = [(*text, b"", 0)];
        holds(
            &rt,
            number,
            is_told(rt.alloc(), &parts, Some((*broken, *at))),
        );
    }
}

/// A rule, its number, and its name.
static NUMBERS: [(Rule, u8, &'static str); 2] = [
    (Rule::NameTaken, 8, "A8 NameTaken"),
    (Rule::PastLimit, 24, "A24 Limit"),
];

#[test]
fn rules_have_the_numbers_that_are_printed(rt: HostRuntime) {
    for (row, (rule, number, name)) in NUMBERS.iter().enumerate() {
        holds(&rt, row, rule.number() == *number && rule.name() == *name);
    }
}
