//! Modules (WebAssembly Core 1.0, section 2.5). Numbers of functions, tables, memories and globals count
//! the imported ones first.
ghost use Rattle.std.specs.Prelude.{◌≡◌, ◌++◌, replicate, IfOk, OnOk};
ghost use Rattle.wasm_tree.specs.Views.{body_of};

use crate::code::{Bytes, Code};
use crate::instr::Instr;
use sem_words::List;
use std::alloc::{AllocError, Global};
use wasm_lang::{ExportKind, GlobalType, ImportKind, Limits, ValType};

/// The type of a function.
#[derive(Drop)]
pub struct FuncType {
    pub params: List<ValType>,
    pub results: List<ValType>,
}

/// An import, by the names of its module and its field.
#[derive(Drop)]
pub struct Import<'a> {
    pub module: Bytes<'a>,
    pub field: Bytes<'a>,
    pub kind: ImportKind,
}

/// A global, with the expression of its first value.
#[derive(Drop)]
pub struct GlobalDef {
    pub kind: GlobalType,
    pub init: List<Instr>,
}

/// An export.
#[derive(Drop)]
pub struct WasmExport<'a> {
    pub name: Bytes<'a>,
    pub kind: ExportKind,
}

/// Functions that are put into a table, from the number on that `offset` computes.
#[derive(Drop)]
pub struct Element {
    pub table: u32,
    pub offset: List<Instr>,
    pub functions: List<u32>,
}

/// Bytes that are put into a memory, from the address on that `offset` computes.
#[derive(Drop)]
pub struct Segment<'a> {
    pub memory: u32,
    pub offset: List<Instr>,
    pub bytes: Bytes<'a>,
}

/// So many locals of one type, one after another.
#[derive(Clone, Copy)]
pub struct Run {
    pub count: u32,
    pub kind: ValType,
}

/// The locals after a function's parameters, in runs, and its code.
#[derive(Drop)]
pub struct Body<'a> {
    pub locals: List<Run>,
    pub code: Code<'a>,
}

impl Body<'_> {
    /// The types `before`, and then the type of each local.
    pub fn local_types(&self, alloc: Global, before: &[ValType]) -> Result<Vec<ValType>, AllocError>
        ensures { IfOk result (λ types. types.items ≡ before.now ++ (body_of self.now).locals) }
    {
        let mut types = Vec::from_slice(alloc, before)?;
        for run in self.locals.as_slice() {
            push_run(&mut types, *run)?;
        }
        Ok(types)
    }
}

// The type of each local of a run.
fn push_run(types: &mut Vec<ValType>, run: Run) -> Result<(), AllocError>
    ensures { OnOk result (types.new.items ≡ types.old.items ++ replicate run.count run.kind) }
{
    for _k in 0..run.count {
        types.push(run.kind)?;
    }
    Ok(())
}

/// A module. A function is the number of its type in `functions` and what stands at that place in `bodies`.
#[derive(Drop)]
pub struct Module<'a> {
    pub types: List<FuncType>,
    pub imports: List<Import<'a>>,
    pub functions: List<u32>,
    pub tables: List<Limits>,
    pub memories: List<Limits>,
    pub globals: List<GlobalDef>,
    pub exports: List<WasmExport<'a>>,
    pub start: Option<u32>,
    pub elements: List<Element>,
    pub bodies: List<Body<'a>>,
    pub segments: List<Segment<'a>>,
}
