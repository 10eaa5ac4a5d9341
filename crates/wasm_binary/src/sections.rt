//! Sections: each is absent or stands next, with its size before its content.
ghost use Rattle.std.specs.Prelude.{◌≡◌, ℕ, List as Bytes, true, false, None, [], Ok, Err, IfOk, IfSome, MatchOption, MatchResult};
ghost use Rattle.sem_words.specs.Lists.{list_items};
ghost use Rattle.wasm_lang.specs.Reading as reading;
ghost use Rattle.wasm_lang.specs.ReadingModule as modules;
ghost use Rattle.wasm_tree.specs.Inputs.{input_of, IsField, IsRead, Continues};
ghost use Rattle.wasm_binary_entries.specs.Lent.{source_of, IsLentImport, IsLentExport, IsLentBody, IsLentSegment, EachAt, Located};
ghost use Rattle.wasm_binary_entries.specs.Places.{import_places, export_place, body_place, segment_place};
ghost use Rattle.wasm_binary.specs.Parts.{section_head, part_head, part_by, IsPlaced, IsPartOf};
ghost use Rattle.wasm_binary_entries.specs.Views.{types_of, imports_of, globals_of, exports_of, elements_of, bodies_of, segments_of};

use sem_words::List;
use std::alloc::Global;
use wasm_binary_entries::bodies::bodies;
use wasm_binary_entries::entries::{
    elements, exports, function_types, globals, memories, numbers, segments, tables,
};
use wasm_binary_entries::fields::{count, name, nothing_left, number, split};
use wasm_binary_entries::imports::{
    MOST_FUNCTIONS, MOST_GLOBALS, function_count, global_count, imports,
};
use wasm_tree::{
    Body, Element, Fault, FuncType, GlobalDef, Import, Input, Limits, ReadError, Row, Segment,
    WasmExport,
};

// The most types of a module that this reader takes.
const MOST_TYPES: usize = 10_000;

// What follows the id of a section, where this one stands next.
fn after_id<'a>(input: Input<'a>, id: u8) -> Option<Input<'a>>
    ensures value { MatchOption result (modules.begins_with id input.entry.bytes.now ≡ false) (λ rest. (modules.begins_with id input.entry.bytes.now ≡ true) × (input_of rest ≡ modules.after_id (input_of input.entry))) }
    ensures follows { IfSome result (λ rest. Continues rest input.entry) }
{
    match input.bytes {
        [first, rest @ ..] if *first == id => Some(Input {
            at: input.at + 1,
            bytes: rest,
        }),
        _ => None,
    }
}

// A section after its id: its content, whose size has to fit the input, and what follows it.
fn section<'a>(input: Input<'a>) -> Result<(Input<'a>, Input<'a>), Fault>
    ensures value { MatchResult result (λ x. section_head (input_of input.entry) ≡ Ok (input_of x.0, input_of x.1)) (λ fault. section_head (input_of input.entry) ≡ Err fault) }
    ensures content { IfOk result (λ x. Continues x.0 input.entry) }
    ensures follows { IfOk result (λ x. Continues x.1 input.entry) }
{
    let (size, rest) = input.u32(Row::Truncated)?;
    if size as usize > rest.bytes.len() {
        return Err(Fault {
            row: Row::Truncated,
            at: rest.at + rest.bytes.len(),
        });
    }
    let (content, after) = split(rest, size as usize);
    Ok((
        Input {
            at: rest.at,
            bytes: content,
        },
        after,
    ))
}

// A custom section after its id: a name and any bytes.
fn custom<'a>(input: Input<'a>) -> Result<Input<'a>, Fault>
    ensures value { MatchResult result (λ rest. (x : Bytes ℕ) × (modules.section_field modules.custom_content (input_of input.entry) ≡ Ok (x, input_of rest))) (λ fault. modules.section_field modules.custom_content (input_of input.entry) ≡ Err fault) }
    ensures follows { IfOk result (λ rest. Continues rest input.entry) }
{
    let (content, after) = section(input)?;
    let (_name, _rest) = name(content)?;
    Ok(after)
}

/// The custom sections that stand next are passed over.
pub fn customs<'a>(input: Input<'a>) -> Result<Input<'a>, Fault>
    ensures value { MatchResult result (λ rest. modules.customs_field (input_of input.entry) ≡ Ok (input_of rest)) (λ fault. modules.customs_field (input_of input.entry) ≡ Err fault) }
    ensures follows { IfOk result (λ rest. Continues rest input.entry) }
{
    let mut rest = input;
    for _turn in 0..input.bytes.len() {
        match after_id(rest, 0) {
            Some(part) => {
                let after = custom(part)?;
                rest = after;
            }
            None => return Ok(rest),
        }
    }
    Ok(rest)
}

/// A section that may stand next: what follows where it is absent, or its content and what follows it.
pub enum Part<'a> {
    Absent(Input<'a>),
    Found(Input<'a>, Input<'a>),
}

// The section with this id, after custom sections.
fn placed<'a>(input: Input<'a>, id: u8) -> Result<Part<'a>, Fault>
    ensures value { IsPlaced result (part_head id (input_of input.entry)) }
    ensures follows { IfOk result (λ part. IsPartOf input.entry part) }
{
    let input = customs(input)?;
    match after_id(input, id) {
        Some(rest) => {
            let (content, after) = section(rest)?;
            Ok(Part::Found(content, after))
        }
        None => Ok(Part::Absent(input)),
    }
}

/// The types.
pub fn type_section<'a>(
    alloc: Global,
    input: Input<'a>,
) -> Result<(List<FuncType>, Input<'a>), ReadError>
    ensures value { IsRead types_of result (part_by 1 [] modules.types_content (input_of input.entry)) }
    ensures follows { IfOk result (λ x. Continues x.1 input.entry) }
{
    match placed(input, 1)? {
        Part::Absent(rest) => Ok((List::new(alloc), rest)),
        Part::Found(content, after) => {
            let (n, rest) = count(content, 0, MOST_TYPES)?;
            let (items, rest) = function_types(alloc, rest, n)?;
            nothing_left(rest)?;
            Ok((items, after))
        }
    }
}

/// The imports.
pub fn import_section<'a>(
    alloc: Global,
    input: Input<'a>,
) -> Result<(List<Import<'a>>, Input<'a>), ReadError>
    ensures value { IsRead imports_of result (part_by 2 [] modules.imports_content (input_of input.entry)) }
    ensures follows { IfOk result (λ x. Continues x.1 input.entry) }
    ensures lent { IfOk result (λ x. Located (part_by 2 [] (reading.vec_field import_places) (input_of input.entry)) (input_of x.1) (λ places. EachAt (IsLentImport (source_of input.entry)) places (list_items x.0))) }
{
    match placed(input, 2)? {
        Part::Absent(rest) => Ok((List::new(alloc), rest)),
        Part::Found(content, after) => {
            let (n, rest) = number(content)?;
            let (items, rest) = imports(alloc, rest, n)?;
            nothing_left(rest)?;
            Ok((items, after))
        }
    }
}

/// The functions, by the numbers of their types.
pub fn function_section<'a>(
    alloc: Global,
    input: Input<'a>,
    imports: &List<Import<'a>>,
) -> Result<(List<u32>, Input<'a>), ReadError>
    ensures value { IsRead list_items result (part_by 3 [] (modules.functions_content (imports_of imports.now)) (input_of input.entry)) }
    ensures follows { IfOk result (λ x. Continues x.1 input.entry) }
{
    match placed(input, 3)? {
        Part::Absent(rest) => Ok((List::new(alloc), rest)),
        Part::Found(content, after) => {
            let (n, rest) = count(content, function_count(imports.as_slice()), MOST_FUNCTIONS)?;
            let (items, rest) = numbers(alloc, rest, n)?;
            nothing_left(rest)?;
            Ok((items, after))
        }
    }
}

/// The tables.
pub fn table_section<'a>(
    alloc: Global,
    input: Input<'a>,
) -> Result<(List<Limits>, Input<'a>), ReadError>
    ensures value { IsRead list_items result (part_by 4 [] (reading.vec_field modules.table_field) (input_of input.entry)) }
    ensures follows { IfOk result (λ x. Continues x.1 input.entry) }
{
    match placed(input, 4)? {
        Part::Absent(rest) => Ok((List::new(alloc), rest)),
        Part::Found(content, after) => {
            let (n, rest) = number(content)?;
            let (items, rest) = tables(alloc, rest, n)?;
            nothing_left(rest)?;
            Ok((items, after))
        }
    }
}

/// The memories.
pub fn memory_section<'a>(
    alloc: Global,
    input: Input<'a>,
) -> Result<(List<Limits>, Input<'a>), ReadError>
    ensures value { IsRead list_items result (part_by 5 [] (reading.vec_field modules.memory_field) (input_of input.entry)) }
    ensures follows { IfOk result (λ x. Continues x.1 input.entry) }
{
    match placed(input, 5)? {
        Part::Absent(rest) => Ok((List::new(alloc), rest)),
        Part::Found(content, after) => {
            let (n, rest) = number(content)?;
            let (items, rest) = memories(alloc, rest, n)?;
            nothing_left(rest)?;
            Ok((items, after))
        }
    }
}

/// The globals.
pub fn global_section<'a>(
    alloc: Global,
    input: Input<'a>,
    imports: &List<Import<'a>>,
) -> Result<(List<GlobalDef>, Input<'a>), ReadError>
    ensures value { IsRead globals_of result (part_by 6 [] (modules.globals_content (imports_of imports.now)) (input_of input.entry)) }
    ensures follows { IfOk result (λ x. Continues x.1 input.entry) }
{
    match placed(input, 6)? {
        Part::Absent(rest) => Ok((List::new(alloc), rest)),
        Part::Found(content, after) => {
            let (n, rest) = count(content, global_count(imports.as_slice()), MOST_GLOBALS)?;
            let (items, rest) = globals(alloc, rest, n)?;
            nothing_left(rest)?;
            Ok((items, after))
        }
    }
}

/// The exports.
pub fn export_section<'a>(
    alloc: Global,
    input: Input<'a>,
) -> Result<(List<WasmExport<'a>>, Input<'a>), ReadError>
    ensures value { IsRead exports_of result (part_by 7 [] (reading.vec_field modules.export_field) (input_of input.entry)) }
    ensures follows { IfOk result (λ x. Continues x.1 input.entry) }
    ensures lent { IfOk result (λ x. Located (part_by 7 [] (reading.vec_field export_place) (input_of input.entry)) (input_of x.1) (λ places. EachAt (IsLentExport (source_of input.entry)) places (list_items x.0))) }
{
    match placed(input, 7)? {
        Part::Absent(rest) => Ok((List::new(alloc), rest)),
        Part::Found(content, after) => {
            let (n, rest) = number(content)?;
            let (items, rest) = exports(alloc, rest, n)?;
            nothing_left(rest)?;
            Ok((items, after))
        }
    }
}

/// A section of one number: the start function, 8, or the data count, 12.
pub fn number_section<'a>(input: Input<'a>, id: u8) -> Result<(Option<u32>, Input<'a>), Fault>
    ensures value { IsField (λ n. n) result (part_by id None (λ i. reading.onto Some (reading.u32 i)) (input_of input.entry)) }
    ensures follows { IfOk result (λ x. Continues x.1 input.entry) }
{
    match placed(input, id)? {
        Part::Absent(rest) => Ok((None, rest)),
        Part::Found(content, after) => {
            let (n, rest) = number(content)?;
            nothing_left(rest)?;
            Ok((Some(n), after))
        }
    }
}

/// The element segments.
pub fn element_section<'a>(
    alloc: Global,
    input: Input<'a>,
) -> Result<(List<Element>, Input<'a>), ReadError>
    ensures value { IsRead elements_of result (part_by 9 [] (reading.vec_field modules.element_field) (input_of input.entry)) }
    ensures follows { IfOk result (λ x. Continues x.1 input.entry) }
{
    match placed(input, 9)? {
        Part::Absent(rest) => Ok((List::new(alloc), rest)),
        Part::Found(content, after) => {
            let (n, rest) = number(content)?;
            let (items, rest) = elements(alloc, rest, n)?;
            nothing_left(rest)?;
            Ok((items, after))
        }
    }
}

/// The bodies, as many as there are functions.
pub fn body_section<'a>(
    alloc: Global,
    input: Input<'a>,
    types: &List<FuncType>,
    functions: &List<u32>,
) -> Result<(List<Body<'a>>, Input<'a>), ReadError>
    ensures value { IsRead bodies_of result (part_by 10 [] (modules.bodies_content (types_of types.now) (list_items functions.now)) (input_of input.entry)) }
    ensures follows { IfOk result (λ x. Continues x.1 input.entry) }
    ensures lent { IfOk result (λ x. Located (part_by 10 [] (reading.vec_field body_place) (input_of input.entry)) (input_of x.1) (λ places. EachAt (IsLentBody (source_of input.entry)) places (list_items x.0))) }
{
    match placed(input, 10)? {
        Part::Absent(rest) => Ok((List::new(alloc), rest)),
        Part::Found(content, after) => {
            let (n, rest) = number(content)?;
            expect_count(n as usize == functions.len(), content.at)?;
            let (items, rest) = bodies(alloc, types.as_slice(), functions.as_slice(), rest)?;
            nothing_left(rest)?;
            Ok((items, after))
        }
    }
}

/// The data segments, as many as a data count says, where there is one.
pub fn segment_section<'a>(
    alloc: Global,
    input: Input<'a>,
    counted: Option<u32>,
) -> Result<(List<Segment<'a>>, Input<'a>), ReadError>
    ensures value { IsRead segments_of result (part_by 11 [] (modules.segments_content counted) (input_of input.entry)) }
    ensures follows { IfOk result (λ x. Continues x.1 input.entry) }
    ensures lent { IfOk result (λ x. Located (part_by 11 [] (reading.vec_field segment_place) (input_of input.entry)) (input_of x.1) (λ places. EachAt (IsLentSegment (source_of input.entry)) places (list_items x.0))) }
{
    match placed(input, 11)? {
        Part::Absent(rest) => Ok((List::new(alloc), rest)),
        Part::Found(content, after) => {
            let (n, rest) = number(content)?;
            expect_count(counts(counted, n as usize), content.at)?;
            let (items, rest) = segments(alloc, rest, n)?;
            nothing_left(rest)?;
            Ok((items, after))
        }
    }
}

/// Whether a data count, where there is one, is this.
pub fn counts(counted: Option<u32>, n: usize) -> bool
    ensures { result ≡ modules.counts counted n }
{
    match counted {
        Some(count) => count as usize == n,
        None => true,
    }
}

/// Goes on where two counts agree, and refuses at a place where they don't.
pub fn expect_count(agree: bool, at: usize) -> Result<(), Fault>
    ensures { MatchResult result (λ x. reading.expects agree Row.Counts at ≡ Ok tt) (λ fault. reading.expects agree Row.Counts at ≡ Err fault) }
{
    if agree {
        Ok(())
    } else {
        Err(Fault {
            row: Row::Counts,
            at,
        })
    }
}

/// Nothing stands after the last section, where the place is told.
pub fn end(input: Input<'_>) -> Result<usize, Fault>
    ensures { MatchResult result (λ at. modules.end_field (input_of input.entry) ≡ Ok at) (λ fault. modules.end_field (input_of input.entry) ≡ Err fault) }
{
    match input.bytes {
        [] => Ok(input.at),
        [0..=12, ..] => Err(Fault {
            row: Row::SectionOrder,
            at: input.at,
        }),
        _ => Err(Fault {
            row: Row::UnknownByte,
            at: input.at,
        }),
    }
}
