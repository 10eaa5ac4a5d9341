//! What the fields of a kind say, in order.

ghost use Rattle.std.specs.Prelude.{◌≡◌, ◌++◌, [], ◌∷◌, OnOk, List as Seq, map, false};
ghost use Rattle.sem_words.specs.Lists.{list_items};
ghost use Rattle.wasm_tree.specs.Views as views;
ghost use Rattle.wat_lang.specs.declared.parts.Space.TheVariants as spaces_of;
ghost use Rattle.wat_lang.specs.Modules as spec;
ghost use Rattle.wat_lang.specs.Names as names;
ghost use Rattle.wat_read_names.specs.Bound.{space_names};
ghost use Rattle.wat_lang.specs.Rows.{number_rows};
ghost use Rattle.wat_read_tokens.specs.Marks.{marks_of, only};
ghost use Rattle.wat_read_names.specs.Fields.{field_of};
ghost use Rattle.wat_lang.specs.declared.parts.FieldKind.TheVariants as kinds;
ghost use Rattle.wat_lang.specs.declared.parts.Space.{Space};
ghost use Rattle.wat_lang.specs.Rows.{locals_of};
ghost use Rattle.wat_laws_kept.specs.Heads.{heads};
ghost use Rattle.wasm_lang.specs.Modules.{FunctionType};
ghost use Rattle.wat_read_fields.specs.Fit.{defines_in, is_function, started};
ghost use Rattle.wat_read_fields.specs.Lists.{HasDescribed, HasListed, HasFunctions, HasLists};
ghost use Rattle.wat_read_fields.specs.Contexts.{module_names, module_types};

use crate::context::Context;
use crate::fields::{element_of, export_of, global_of, import_of, segment_of};
use crate::kinds::{function_type_in, limits_in};
use key_hashes::KeyHashes;
use sem_words::List;
use std::alloc::{AllocError, Global};
use wasm_tree::{Body, Code, Element, GlobalDef, Import, Instr, Limits, Segment, WasmExport};
use wat_lang::{FieldKind, Space};
use wat_marks::MarkedToken;
use wat_read_bodies::{first_used, local_runs};
use wat_read_names::{Field, Spaces};

/// Whether the field defines something in the space.
fn defines(field: &Field<'_, '_>, space: Space) -> bool
    ensures { result ≡ defines_in space (field_of field.now) }
{
    field.enters(space) && !field.is_import()
}

fn push_import<'a>(
    alloc: Global,
    list: &mut List<Import<'a>>,
    spaces: &Spaces<'_>,
    field: &Field<'_, 'a>,
) -> Result<(), AllocError>
    requires { number_rows (marks_of field.now.parts.now) ≡ [] }
    ensures { OnOk result (map views.import_of (list_items list.new) ≡ map views.import_of (list_items list.old) ++ only (names.is_import field.now.kind) (spec.import_of (space_names spaces.now) (marks_of field.now.parts.now))) }
{
    if !field.is_import() {
        return Ok(());
    }
    let item = import_of(alloc, spaces, field.parts)?;
    if list.push(item).is_err() {
        return Err(AllocError);
    }
    Ok(())
}

fn push_table(list: &mut List<Limits>, field: &Field<'_, '_>) -> Result<(), AllocError>
    requires { number_rows (marks_of field.now.parts.now) ≡ [] }
    ensures { OnOk result (list_items list.new ≡ list_items list.old ++ only (defines_in spaces_of.Table (field_of field.now)) (spec.limits_in (marks_of field.now.parts.now))) }
{
    if !defines(field, Space::Table) {
        return Ok(());
    }
    let item = limits_in(field.parts);
    if list.push(item).is_err() {
        return Err(AllocError);
    }
    Ok(())
}

fn push_memory(list: &mut List<Limits>, field: &Field<'_, '_>) -> Result<(), AllocError>
    requires { number_rows (marks_of field.now.parts.now) ≡ [] }
    ensures { OnOk result (list_items list.new ≡ list_items list.old ++ only (defines_in spaces_of.Memory (field_of field.now)) (spec.limits_in (marks_of field.now.parts.now))) }
{
    if !defines(field, Space::Memory) {
        return Ok(());
    }
    let item = limits_in(field.parts);
    if list.push(item).is_err() {
        return Err(AllocError);
    }
    Ok(())
}

fn push_global(
    alloc: Global,
    list: &mut List<GlobalDef>,
    hashes: KeyHashes,
    spaces: &Spaces<'_>,
    field: &Field<'_, '_>,
) -> Result<(), AllocError>
    requires { number_rows (marks_of field.now.parts.now) ≡ [] }
    ensures { OnOk result (map views.global_of (list_items list.new) ≡ map views.global_of (list_items list.old) ++ only (defines_in spaces_of.Global (field_of field.now)) (spec.global_of (space_names spaces.now) (marks_of field.now.parts.now))) }
{
    if !defines(field, Space::Global) {
        return Ok(());
    }
    let item = global_of(alloc, hashes, spaces, field.parts)?;
    if list.push(item).is_err() {
        return Err(AllocError);
    }
    Ok(())
}

fn is_export(field: &Field<'_, '_>) -> bool
    ensures { result ≡ spec.is_export field.now.kind }
{
    matches!(field.kind, FieldKind::Export)
}

fn push_export<'a>(
    alloc: Global,
    list: &mut List<WasmExport<'a>>,
    spaces: &Spaces<'_>,
    field: &Field<'_, 'a>,
) -> Result<(), AllocError>
    requires { number_rows (marks_of field.now.parts.now) ≡ [] }
    ensures { OnOk result (map views.export_of (list_items list.new) ≡ map views.export_of (list_items list.old) ++ only (spec.is_export field.now.kind) (spec.export_of (space_names spaces.now) (marks_of field.now.parts.now))) }
{
    if !is_export(field) {
        return Ok(());
    }
    let item = export_of(alloc, spaces, field.parts)?;
    if list.push(item).is_err() {
        return Err(AllocError);
    }
    Ok(())
}

fn is_start(field: &Field<'_, '_>) -> bool
    ensures { result ≡ spec.is_start field.now.kind }
{
    matches!(field.kind, FieldKind::Start)
}

fn push_element(
    alloc: Global,
    list: &mut List<Element>,
    hashes: KeyHashes,
    spaces: &Spaces<'_>,
    field: &Field<'_, '_>,
) -> Result<(), AllocError>
    requires { number_rows (marks_of field.now.parts.now) ≡ [] }
    ensures { OnOk result (map views.element_of (list_items list.new) ≡ map views.element_of (list_items list.old) ++ only (defines_in spaces_of.Elem (field_of field.now)) (spec.element_of (space_names spaces.now) (marks_of field.now.parts.now))) }
{
    if !defines(field, Space::Elem) {
        return Ok(());
    }
    let item = element_of(alloc, hashes, spaces, field.parts)?;
    if list.push(item).is_err() {
        return Err(AllocError);
    }
    Ok(())
}

fn push_segment<'a>(
    alloc: Global,
    list: &mut List<Segment<'a>>,
    hashes: KeyHashes,
    spaces: &Spaces<'_>,
    field: &Field<'_, 'a>,
) -> Result<(), AllocError>
    requires { number_rows (marks_of field.now.parts.now) ≡ [] }
    ensures { OnOk result (map views.segment_of (list_items list.new) ≡ map views.segment_of (list_items list.old) ++ only (defines_in spaces_of.Data (field_of field.now)) (spec.segment_of (space_names spaces.now) (marks_of field.now.parts.now))) }
{
    if !defines(field, Space::Data) {
        return Ok(());
    }
    let item = segment_of(alloc, hashes, spaces, field.parts)?;
    if list.push(item).is_err() {
        return Err(AllocError);
    }
    Ok(())
}

/// The function of the first start, where one more field is looked at.
fn start_or(start: Option<u32>, spaces: &Spaces<'_>, field: &Field<'_, '_>) -> Option<u32>
    requires { number_rows (marks_of field.now.parts.now) ≡ [] }
    ensures { result ≡ started start (only (spec.is_start field.now.kind) (spec.first_used (space_names spaces.now) spaces_of.Func (marks_of field.now.parts.now))) }
{
    match start {
        Some(function) => Some(function),
        None => {
            if is_start(field) {
                Some(first_used(&spaces.functions, Space::Func, field.parts))
            } else {
                None
            }
        }
    }
}

/// What imports are, and the tables, memories and globals that are defined.
#[derive(Drop)]
pub struct Described<'a> {
    pub imports: List<Import<'a>>,
    pub tables: List<Limits>,
    pub memories: List<Limits>,
    pub globals: List<GlobalDef>,
}

/// Exports, the first start, and segments.
#[derive(Drop)]
pub struct Listed<'a> {
    pub exports: List<WasmExport<'a>>,
    pub start: Option<u32>,
    pub elements: List<Element>,
    pub segments: List<Segment<'a>>,
}

/// The functions that are defined: the numbers of their types, and their bodies.
#[derive(Drop)]
pub struct Functions<'a> {
    pub types: List<u32>,
    pub bodies: List<Body<'a>>,
}

/// What fields that are whole say, by their kinds.
#[derive(Drop)]
pub struct Lists<'a> {
    pub described: Described<'a>,
    pub listed: Listed<'a>,
    pub functions: Functions<'a>,
}

impl<'a> Described<'a> {
    fn new(alloc: Global) -> Described<'a>
        ensures { (names_of : Space → names.Names) → HasDescribed names_of result [] }
    {
        Described {
            imports: List::new(alloc),
            tables: List::new(alloc),
            memories: List::new(alloc),
            globals: List::new(alloc),
        }
    }

    fn add(&mut self, context: Context<'_, '_>, field: &Field<'_, 'a>) -> Result<(), AllocError>
        requires { number_rows (marks_of field.now.parts.now) ≡ [] }
        ensures { (fs : Seq names.Field) → HasDescribed (module_names context.entry) self.old fs → OnOk result (HasDescribed (module_names context.entry) self.new (fs ++ field_of field.now ∷ [])) }
    {
        let Context {
            alloc,
            hashes,
            spaces,
            types: _,
        } = context;
        push_import(alloc, &mut self.imports, spaces, field)?;
        push_table(&mut self.tables, field)?;
        push_memory(&mut self.memories, field)?;
        push_global(alloc, &mut self.globals, hashes, spaces, field)
    }
}

impl<'a> Listed<'a> {
    fn new(alloc: Global) -> Listed<'a>
        ensures { (names_of : Space → names.Names) → HasListed names_of result [] }
    {
        Listed {
            exports: List::new(alloc),
            start: None,
            elements: List::new(alloc),
            segments: List::new(alloc),
        }
    }

    fn add(&mut self, context: Context<'_, '_>, field: &Field<'_, 'a>) -> Result<(), AllocError>
        requires { number_rows (marks_of field.now.parts.now) ≡ [] }
        ensures { (fs : Seq names.Field) → HasListed (module_names context.entry) self.old fs → OnOk result (HasListed (module_names context.entry) self.new (fs ++ field_of field.now ∷ [])) }
    {
        let Context {
            alloc,
            hashes,
            spaces,
            types: _,
        } = context;
        self.start = start_or(self.start, spaces, field);
        push_export(alloc, &mut self.exports, spaces, field)?;
        push_element(alloc, &mut self.elements, hashes, spaces, field)?;
        push_segment(alloc, &mut self.segments, hashes, spaces, field)
    }
}

impl<'a> Functions<'a> {
    /// Adds a function with its code. Its heads alone are given.
    fn add(
        &mut self,
        context: Context<'_, '_>,
        parts: &[MarkedToken<'_>],
        code: Vec<Instr>,
    ) -> Result<(), AllocError>
        requires { number_rows (marks_of parts.now) ≡ [] }
        ensures { (fs : Seq names.Field) (f : names.Field) → HasFunctions (module_names context.entry) (module_types context.entry) self.old fs → f.kind ≡ kinds.Func → marks_of parts.now ≡ heads f.parts
            → map views.instr_of code.items ≡ spec.code_in (module_names context.entry) (locals_of (module_names context.entry) (module_types context.entry) f) f.parts
            → OnOk result (HasFunctions (module_names context.entry) (module_types context.entry) self.new (fs ++ f ∷ [])) }
    {
        let locals = local_runs(context.alloc, parts)?;
        if self
            .types
            .push(function_type_in(context.spaces, parts))
            .is_err()
        {
            return Err(AllocError);
        }
        let body = Body {
            locals,
            code: Code::Own(List::from_vec(code)),
        };
        if self.bodies.push(body).is_err() {
            return Err(AllocError);
        }
        Ok(())
    }
}

impl<'a> Lists<'a> {
    /// Of no field.
    pub fn new(alloc: Global) -> Lists<'a>
        ensures { (names_of : Space → names.Names) (types : Seq FunctionType) → HasLists names_of types result [] }
    {
        Lists {
            described: Described::new(alloc),
            listed: Listed::new(alloc),
            functions: Functions {
                types: List::new(alloc),
                bodies: List::new(alloc),
            },
        }
    }

    /// Adds a field that is no function.
    pub fn add(&mut self, context: Context<'_, '_>, field: &Field<'_, 'a>) -> Result<(), AllocError>
        requires kind { is_function field.now.kind ≡ false }
        requires fits { number_rows (marks_of field.now.parts.now) ≡ [] }
        ensures { (fs : Seq names.Field) → HasLists (module_names context.entry) (module_types context.entry) self.old fs → OnOk result (HasLists (module_names context.entry) (module_types context.entry) self.new (fs ++ field_of field.now ∷ [])) }
    {
        match field.kind {
            FieldKind::Import | FieldKind::Table | FieldKind::Memory | FieldKind::Global => {
                self.described.add(context, field)
            }
            FieldKind::Export | FieldKind::Start | FieldKind::Elem | FieldKind::Data => {
                self.listed.add(context, field)
            }
            FieldKind::Type | FieldKind::Func => Ok(()),
        }
    }

    /// Adds a function with its code. Its heads alone are given.
    pub fn add_function(
        &mut self,
        context: Context<'_, '_>,
        parts: &[MarkedToken<'_>],
        code: Vec<Instr>,
    ) -> Result<(), AllocError>
        requires { number_rows (marks_of parts.now) ≡ [] }
        ensures { (fs : Seq names.Field) (f : names.Field) → HasLists (module_names context.entry) (module_types context.entry) self.old fs → f.kind ≡ kinds.Func → marks_of parts.now ≡ heads f.parts
            → map views.instr_of code.items ≡ spec.code_in (module_names context.entry) (locals_of (module_names context.entry) (module_types context.entry) f) f.parts
            → OnOk result (HasLists (module_names context.entry) (module_types context.entry) self.new (fs ++ f ∷ [])) }
    {
        self.functions.add(context, parts, code)
    }
}
