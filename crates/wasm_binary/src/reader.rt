//! Reading a module.
ghost use Rattle.std.specs.Prelude.{ℕ, List as Listed, Ok, Err, IfOk, IfErr};
ghost use Rattle.wasm_lang.specs.Grammar.{IsModuleBytes};
ghost use Rattle.wasm_lang.specs.Limits.{IsWithinReader};
ghost use Rattle.wasm_lang.specs.Modules.{WasmModule};
ghost use Rattle.wasm_lang.specs.Bytes.{IsRead};
ghost use Rattle.wasm_lang.specs.Shape.{IsShaped};
ghost use Rattle.wasm_tree.specs.Views.{module_of};
ghost use Rattle.wasm_tree.specs.Inputs.{input_of};
ghost use Rattle.wasm_tree.specs.Slices.{Stands};
ghost use Rattle.sem_words.specs.Lists.{list_items};
ghost use Rattle.wasm_binary_entries.specs.Lent.{Source, IsLentImport, IsLentExport, EachAt};
ghost use Rattle.wasm_binary_entries.specs.Views.{types_of, imports_of};
ghost use Rattle.wasm_binary.specs.Whole.{read_by_parts, sections_from, declarations_from, definitions_from, contents_from, front_of, middle_of};
ghost use Rattle.wasm_binary.specs.Lent.{IsLentBy, IsLentModule};
ghost use Rattle.wasm_binary.specs.Places.{contents_places, definitions_places, declarations_places, sections_places};
ghost use Rattle.wasm_binary.specs.Answers.{IsModule, IsReadAs, IsRefusal};

use crate::fault::{BinFault, told};
use crate::sections::{
    body_section, counts, customs, element_section, end, expect_count, export_section,
    function_section, global_section, import_section, memory_section, number_section,
    segment_section, table_section, type_section,
};
use sem_words::List;
use std::alloc::Global;
use wasm_binary_entries::fields::expected;
use wasm_tree::{
    Element, FuncType, GlobalDef, Import, Input, Limits, Module, ReadError, Row, WasmExport,
};

/// The module that the bytes spell, or the first field that can't be read: why, and its place. Counts above
/// the limits of this reader are refused. The time is linear in the bytes.
pub fn read<'a>(alloc: Global, bytes: &'a [u8]) -> Result<Module<'a>, BinFault>
    ensures found { IfOk result (λ m. IsRead bytes.now (module_of m)) }
    ensures shaped { IfOk result (λ m. IsShaped (module_of m)) }
    ensures only { (m : WasmModule) → IsModuleBytes bytes.now m → IsWithinReader m → IsReadAs m result }
    ensures fault { IfErr result (λ fault. IsRefusal bytes.now fault) }
    ensures lent { IfOk result (λ m. IsLentModule bytes.entry m) }
{
    match module(alloc, bytes) {
        Ok(module) => Ok(module),
        Err(error) => Err(told(error)),
    }
}

/// The sections before the exports.
#[derive(Drop)]
pub struct Declared<'a> {
    pub types: List<FuncType>,
    pub imports: List<Import<'a>>,
    pub functions: List<u32>,
    pub tables: List<Limits>,
    pub memories: List<Limits>,
    pub globals: List<GlobalDef>,
}

/// The sections between the globals and the data count.
#[derive(Drop)]
pub struct Defined<'a> {
    pub exports: List<WasmExport<'a>>,
    pub start: Option<u32>,
    pub elements: List<Element>,
}

// The module, with the fault as it was met.
fn module<'a>(alloc: Global, bytes: &'a [u8]) -> Result<Module<'a>, ReadError>
    ensures value { IsModule result (read_by_parts bytes.now) }
    ensures lent { IfOk result (λ m. IsLentModule bytes.entry m) }
{
    let input = Input::new(bytes);
    let rest = expected(input, b"\0asm", Row::Magic)?;
    let rest = expected(rest, b"\x01\0\0\0", Row::Version)?;
    Ok(sections(alloc, rest)?)
}

// The module, after the header.
fn sections<'a>(alloc: Global, input: Input<'a>) -> Result<Module<'a>, ReadError>
    ensures value { IsModule result (sections_from (input_of input.entry)) }
    ensures lent { (source : Source) → Stands input.entry.at input.entry.bytes source.0 source.1 → IfOk result (λ m. IsLentBy source (sections_places (input_of input.entry)) m) }
{
    let (types, rest) = type_section(alloc, input)?;
    let (imports, rest) = import_section(alloc, rest)?;
    Ok(declarations(alloc, types, imports, rest)?)
}

// The module, from the functions on.
fn declarations<'a>(
    alloc: Global,
    types: List<FuncType>,
    imports: List<Import<'a>>,
    input: Input<'a>,
) -> Result<Module<'a>, ReadError>
    ensures value { IsModule result (declarations_from (types_of types) (imports_of imports.entry) (input_of input.entry)) }
    ensures lent { (source : Source) (is : Listed (ℕ × ℕ)) → EachAt (IsLentImport source) is (list_items imports.entry) → Stands input.entry.at input.entry.bytes source.0 source.1 → IfOk result (λ m. IsLentBy source (declarations_places is (input_of input.entry)) m) }
{
    let (functions, rest) = function_section(alloc, input, &imports)?;
    let (tables, rest) = table_section(alloc, rest)?;
    let (memories, rest) = memory_section(alloc, rest)?;
    let (globals, rest) = global_section(alloc, rest, &imports)?;
    let declared = Declared {
        types,
        imports,
        functions,
        tables,
        memories,
        globals,
    };
    Ok(definitions(alloc, declared, rest)?)
}

// The module, from the exports on.
fn definitions<'a>(
    alloc: Global,
    declared: Declared<'a>,
    input: Input<'a>,
) -> Result<Module<'a>, ReadError>
    ensures value { IsModule result (definitions_from (front_of declared.entry) (input_of input.entry)) }
    ensures lent { (source : Source) (is : Listed (ℕ × ℕ)) → EachAt (IsLentImport source) is (list_items declared.entry.imports) → Stands input.entry.at input.entry.bytes source.0 source.1 → IfOk result (λ m. IsLentBy source (definitions_places is (input_of input.entry)) m) }
{
    let (exports, rest) = export_section(alloc, input)?;
    let (start, rest) = number_section(rest, 8)?;
    let (elements, rest) = element_section(alloc, rest)?;
    let (counted, rest) = number_section(rest, 12)?;
    let defined = Defined {
        exports,
        start,
        elements,
    };
    Ok(contents(alloc, declared, defined, counted, rest)?)
}

// The module, from the code on.
fn contents<'a>(
    alloc: Global,
    declared: Declared<'a>,
    defined: Defined<'a>,
    counted: Option<u32>,
    input: Input<'a>,
) -> Result<Module<'a>, ReadError>
    ensures value { IsModule result (contents_from (front_of declared.entry) (middle_of defined.entry) counted (input_of input.entry)) }
    ensures lent { (source : Source) (is : Listed (ℕ × ℕ)) (es : Listed ℕ) → EachAt (IsLentImport source) is (list_items declared.entry.imports) → EachAt (IsLentExport source) es (list_items defined.entry.exports) → Stands input.entry.at input.entry.bytes source.0 source.1 → IfOk result (λ m. IsLentBy source (contents_places is es (input_of input.entry)) m) }
{
    let (bodies, rest) = body_section(alloc, input, &declared.types, &declared.functions)?;
    let (segments, rest) = segment_section(alloc, rest, counted)?;
    let at = end(customs(rest)?)?;
    expect_count(bodies.len() == declared.functions.len(), at)?;
    expect_count(counts(counted, segments.len()), at)?;
    Ok(Module {
        types: declared.types,
        imports: declared.imports,
        functions: declared.functions,
        tables: declared.tables,
        memories: declared.memories,
        globals: declared.globals,
        exports: defined.exports,
        start: defined.start,
        elements: defined.elements,
        bodies,
        segments,
    })
}
