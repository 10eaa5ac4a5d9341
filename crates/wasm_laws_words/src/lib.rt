//! A valid module of WebAssembly is made of words and bytes.
#![tactic(auto)]

ghost use Rattle.std.specs.Prelude.{◌<◌, ◌^◌, All, map};
ghost use Rattle.std.specs.List.{AllByRecursion};
ghost use Rattle.wasm_tree.specs.Views.{body_of, code_of, element_of, export_of, global_of, import_of, instr_of, module_of, segment_of};
ghost use Rattle.wat_laws_print.specs.Words.{AreBytes, AreLimits, HasWords, IsExported, IsImported, IsMaximum, IsNumber, IsOfWords};

use wasm_lang::{ExportKind, ImportKind, Limits};
use wasm_tree::{Body, Code, Element, GlobalDef, Import, Instr, Module, Segment, WasmExport};
use wasm_validate::Valid;

/// The numbers of a valid module are words, and its names and segments are bytes.
pub fn words(valid: &Valid<'_>)
    ensures { IsOfWords valid.now }
{
    words_of_module(valid.module());
}

fn words_of_module(module: &Module<'_>)
    ensures { IsOfWords (module_of «module».now) }
{
    imports(module.imports.as_slice());
    number_words(module.functions.as_slice());
    limits(module.tables.as_slice());
    limits(module.memories.as_slice());
    globals(module.globals.as_slice());
    exports(module.exports.as_slice());
    is_maximum(module.start);
    elements(module.elements.as_slice());
    bodies(module.bodies.as_slice());
    segments(module.segments.as_slice());
}

// Each of a slice's bytes is below 256.
fn are_bytes(bytes: &[u8])
    ensures { All (λ b. b < 256) bytes.now }
{}

fn are_numbers(numbers: &[u32])
    ensures { All IsNumber numbers.now }
{}

fn byte_words(bytes: &[u8])
    ensures { AreBytes bytes.now }
{
    are_bytes(bytes);
}

fn number_words(numbers: &[u32])
    ensures { AllByRecursion IsNumber numbers.now }
{
    are_numbers(numbers);
}

fn is_maximum(max: Option<u32>)
    ensures { IsMaximum max }
{
    match max {
        None => {}
        Some(_n) => {}
    }
}

fn limits_of(limits: &Limits)
    ensures { AreLimits limits.now }
{
    let _min = limits.min;
    is_maximum(limits.max);
}

fn limits(list: &[Limits])
    ensures { AllByRecursion AreLimits list.now }
{
    for limits in list {
        limits_of(limits);
    }
}

fn imported(kind: &ImportKind)
    ensures { IsImported kind.now }
{
    match kind {
        ImportKind::Func(function_type) => {
            let _number = *function_type;
        }
        ImportKind::Table(limits) => limits_of(limits),
        ImportKind::Memory(limits) => limits_of(limits),
        ImportKind::Global(_) => {}
    }
}

fn exported(kind: &ExportKind)
    ensures { IsExported kind.now }
{
    match kind {
        ExportKind::Func(n) => {
            let _number = *n;
        }
        ExportKind::Table(n) => {
            let _number = *n;
        }
        ExportKind::Memory(n) => {
            let _number = *n;
        }
        ExportKind::Global(n) => {
            let _number = *n;
        }
    }
}

fn import_words(import: &Import<'_>)
    ensures { AreBytes (import_of import.now).module_name × AreBytes (import_of import.now).name × IsImported import.now.kind }
{
    byte_words(import.module.as_bytes());
    byte_words(import.field.as_bytes());
    imported(&import.kind);
}

fn imports(imports: &[Import<'_>])
    ensures { AllByRecursion (λ i. AreBytes i.module_name × AreBytes i.name × IsImported i.kind) (map import_of imports.now) }
{
    for import in imports {
        import_words(import);
    }
}

fn export_words(export: &WasmExport<'_>)
    ensures { AreBytes (export_of export.now).name × IsExported export.now.kind }
{
    byte_words(export.name.as_bytes());
    exported(&export.kind);
}

fn exports(exports: &[WasmExport<'_>])
    ensures { AllByRecursion (λ e. AreBytes e.name × IsExported e.kind) (map export_of exports.now) }
{
    for export in exports {
        export_words(export);
    }
}

// A number is read, since that tells its range.
fn instr_words(instr: &Instr)
    ensures { HasWords (instr_of instr.now) }
{
    match instr {
        Instr::Br(n)
        | Instr::BrIf(n)
        | Instr::Call(n)
        | Instr::CallIndirect(n)
        | Instr::LocalGet(n)
        | Instr::LocalSet(n)
        | Instr::LocalTee(n)
        | Instr::GlobalGet(n)
        | Instr::GlobalSet(n)
        | Instr::Const32(n)
        | Instr::Load(_, _, n)
        | Instr::Store(_, _, n) => {
            let _number = *n;
        }
        Instr::BrTable(labels, default) => {
            number_words(labels.as_slice());
            let _number = *default;
        }
        Instr::Const64(word) => {
            let _word = *word;
        }
        _ => {}
    }
}

fn list_words(list: &[Instr])
    ensures { AllByRecursion HasWords (map instr_of list.now) }
{
    for instr in list {
        instr_words(instr);
    }
}

// Lent bytes spell words.
#[tactic(auto, using(crate::proofs::Spelled::spelled_words))]
fn code_words(code: &Code<'_>)
    ensures { AllByRecursion HasWords (code_of code.now) }
{
    match code {
        Code::Lent(bytes) => byte_words(bytes),
        Code::Own(list) => list_words(list.as_slice()),
    }
}

fn bodies(bodies: &[Body<'_>])
    ensures { AllByRecursion (λ b. AllByRecursion HasWords b.code) (map body_of bodies.now) }
{
    for body in bodies {
        code_words(&body.code);
    }
}

fn globals(globals: &[GlobalDef])
    ensures { AllByRecursion (λ g. AllByRecursion HasWords g.init) (map global_of globals.now) }
{
    for global in globals {
        list_words(global.init.as_slice());
    }
}

fn element_words(element: &Element)
    ensures { AllByRecursion HasWords (element_of element.now).offset × AllByRecursion IsNumber (element_of element.now).functions }
{
    list_words(element.offset.as_slice());
    number_words(element.functions.as_slice());
}

fn elements(elements: &[Element])
    ensures { AllByRecursion (λ e. AllByRecursion HasWords e.offset × AllByRecursion IsNumber e.functions) (map element_of elements.now) }
{
    for element in elements {
        element_words(element);
    }
}

fn segment_words(segment: &Segment<'_>)
    ensures { AllByRecursion HasWords (segment_of segment.now).offset × AreBytes (segment_of segment.now).bytes }
{
    list_words(segment.offset.as_slice());
    byte_words(segment.bytes.as_bytes());
}

fn segments(segments: &[Segment<'_>])
    ensures { AllByRecursion (λ s. AllByRecursion HasWords s.offset × AreBytes s.bytes) (map segment_of segments.now) }
{
    for segment in segments {
        segment_words(segment);
    }
}
