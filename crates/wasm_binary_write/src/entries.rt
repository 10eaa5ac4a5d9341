//! What sections hold (WebAssembly Core 1.0, section 5.5).
ghost use Rattle.std.specs.Prelude.{◌≡◌, ◌∷◌, ◌++◌, OnOk};
ghost use Rattle.wasm_binary_write.specs.Spelling.{unsigned};

use crate::instrs::push_instrs;
use crate::leb::push_unsigned;
use crate::spell::{Spell, push_sized, push_vector};
use crate::types::Table;
use std::alloc::{AllocError, Global};
use wasm_tree::{Element, ExportKind, GlobalDef, Import, ImportKind, Segment, WasmExport};

impl Spell for ImportKind {
    ghost use Rattle.wasm_binary_write.specs.Spelling.{import_kind};

    ghost spelling = { λ k. import_kind k };

    fn push_to(&self, alloc: Global, out: &mut Vec<u8>) -> Result<(), AllocError> {
        match *self {
            ImportKind::Func(function_type) => {
                out.push(0x00)?;
                push_unsigned(out, function_type as usize)
            }
            ImportKind::Table(limits) => {
                out.push(0x01)?;
                Table(limits).push_to(alloc, out)
            }
            ImportKind::Memory(limits) => {
                out.push(0x02)?;
                limits.push_to(alloc, out)
            }
            ImportKind::Global(kind) => {
                out.push(0x03)?;
                kind.push_to(alloc, out)
            }
        }
    }
}

impl Spell for Import<'_> {
    ghost use Rattle.wasm_tree.specs.Views.{import_of};
    ghost use Rattle.wasm_binary_write.specs.Spelling.{imported};

    ghost spelling = { λ i. imported (import_of i) };

    fn push_to(&self, alloc: Global, out: &mut Vec<u8>) -> Result<(), AllocError> {
        push_sized(out, self.module.as_bytes())?;
        push_sized(out, self.field.as_bytes())?;
        self.kind.push_to(alloc, out)
    }
}

impl Spell for GlobalDef {
    ghost use Rattle.wasm_tree.specs.Views.{global_of};
    ghost use Rattle.wasm_binary_write.specs.Spelling.{global};

    ghost spelling = { λ g. global (global_of g) };

    fn push_to(&self, alloc: Global, out: &mut Vec<u8>) -> Result<(), AllocError> {
        self.kind.push_to(alloc, out)?;
        push_instrs(alloc, out, self.init.as_slice())
    }
}

// A byte for the kind, and a number.
fn push_numbered(out: &mut Vec<u8>, kind: u8, number: u32) -> Result<(), AllocError>
    ensures { OnOk result (out.new.items ≡ out.old.items ++ kind ∷ unsigned number) }
{
    out.push(kind)?;
    push_unsigned(out, number as usize)
}

impl Spell for ExportKind {
    ghost use Rattle.wasm_binary_write.specs.Spelling.{export_kind};

    ghost spelling = { λ k. export_kind k };

    fn push_to(&self, _alloc: Global, out: &mut Vec<u8>) -> Result<(), AllocError> {
        match *self {
            ExportKind::Func(number) => push_numbered(out, 0x00, number),
            ExportKind::Table(number) => push_numbered(out, 0x01, number),
            ExportKind::Memory(number) => push_numbered(out, 0x02, number),
            ExportKind::Global(number) => push_numbered(out, 0x03, number),
        }
    }
}

impl Spell for WasmExport<'_> {
    ghost use Rattle.wasm_tree.specs.Views.{export_of};
    ghost use Rattle.wasm_binary_write.specs.Spelling.{exported};

    ghost spelling = { λ e. exported (export_of e) };

    fn push_to(&self, alloc: Global, out: &mut Vec<u8>) -> Result<(), AllocError> {
        push_sized(out, self.name.as_bytes())?;
        self.kind.push_to(alloc, out)
    }
}

impl Spell for Element {
    ghost use Rattle.wasm_tree.specs.Views.{element_of};
    ghost use Rattle.wasm_binary_write.specs.Spelling.{element};

    ghost spelling = { λ e. element (element_of e) };

    fn push_to(&self, alloc: Global, out: &mut Vec<u8>) -> Result<(), AllocError> {
        push_unsigned(out, self.table as usize)?;
        push_instrs(alloc, out, self.offset.as_slice())?;
        push_vector(alloc, out, self.functions.as_slice())
    }
}

impl Spell for Segment<'_> {
    ghost use Rattle.wasm_tree.specs.Views.{segment_of};
    ghost use Rattle.wasm_binary_write.specs.Spelling.{segment};

    ghost spelling = { λ s. segment (segment_of s) };

    fn push_to(&self, alloc: Global, out: &mut Vec<u8>) -> Result<(), AllocError> {
        push_unsigned(out, self.memory as usize)?;
        push_instrs(alloc, out, self.offset.as_slice())?;
        push_sized(out, self.bytes.as_bytes())
    }
}
