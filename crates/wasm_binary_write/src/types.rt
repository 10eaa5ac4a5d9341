//! Types and numbers (WebAssembly Core 1.0, section 5.3).
ghost use Rattle.std.specs.Prelude.{◌≡◌, ◌++◌, OnOk};
ghost use Rattle.wasm_binary_write.specs.Spelling.{block_type};

use crate::leb::push_unsigned;
use crate::spell::{Spell, push_vector};
use std::alloc::{AllocError, Global};
use wasm_tree::{FuncType, GlobalType, Limits, ValType};

/// A table, by its limits.
#[derive(Clone, Copy)]
pub struct Table(pub Limits);

impl Spell for u32 {
    ghost use Rattle.wasm_binary_write.specs.Spelling.{unsigned};

    ghost spelling = { λ n. unsigned n };

    fn push_to(&self, _alloc: Global, out: &mut Vec<u8>) -> Result<(), AllocError> {
        push_unsigned(out, *self as usize)
    }
}

impl Spell for ValType {
    ghost use Rattle.wasm_binary_write.specs.Spelling.{value_type};

    ghost spelling = { λ t. value_type t };

    fn push_to(&self, _alloc: Global, out: &mut Vec<u8>) -> Result<(), AllocError> {
        match *self {
            ValType::I32 => out.push(0x7f)?,
            ValType::I64 => out.push(0x7e)?,
        }
        Ok(())
    }
}

/// Appends the type of a block.
pub fn push_block_type(
    alloc: Global,
    out: &mut Vec<u8>,
    kind: Option<ValType>,
) -> Result<(), AllocError>
    ensures { OnOk result (out.new.items ≡ out.old.items ++ block_type kind) }
{
    match kind {
        None => {
            out.push(0x40)?;
            Ok(())
        }
        Some(result) => result.push_to(alloc, out),
    }
}

impl Spell for FuncType {
    ghost use Rattle.wasm_tree.specs.Views.{type_of};
    ghost use Rattle.wasm_binary_write.specs.Spelling.{function_type};

    ghost spelling = { λ t. function_type (type_of t) };

    fn push_to(&self, alloc: Global, out: &mut Vec<u8>) -> Result<(), AllocError> {
        out.push(0x60)?;
        push_vector(alloc, out, self.params.as_slice())?;
        push_vector(alloc, out, self.results.as_slice())
    }
}

impl Spell for Limits {
    ghost use Rattle.wasm_binary_write.specs.Spelling.{limits};

    ghost spelling = { λ l. limits l };

    fn push_to(&self, _alloc: Global, out: &mut Vec<u8>) -> Result<(), AllocError> {
        match self.max {
            None => {
                out.push(0x00)?;
                push_unsigned(out, self.min as usize)
            }
            Some(max) => {
                out.push(0x01)?;
                push_unsigned(out, self.min as usize)?;
                push_unsigned(out, max as usize)
            }
        }
    }
}

impl Spell for Table {
    ghost use Rattle.wasm_binary_write.specs.Spelling.{table};
    ghost use Rattle.wasm_binary_write.specs.Views.{limits_of};

    ghost spelling = { λ t. table (limits_of t) };

    fn push_to(&self, alloc: Global, out: &mut Vec<u8>) -> Result<(), AllocError> {
        out.push(0x70)?;
        self.0.push_to(alloc, out)
    }
}

impl Spell for GlobalType {
    ghost use Rattle.wasm_binary_write.specs.Spelling.{global_type};

    ghost spelling = { λ g. global_type g };

    fn push_to(&self, alloc: Global, out: &mut Vec<u8>) -> Result<(), AllocError> {
        self.kind.push_to(alloc, out)?;
        out.push(u8::from(self.mutable))?;
        Ok(())
    }
}
