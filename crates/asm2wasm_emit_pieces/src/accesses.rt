//! Elements of a view. One outside the heap reads as 0, and nothing is written there.
ghost use Rattle.std.specs.Prelude.{◌≡◌, ◌+◌, ◌^◌, ◌<◌, ◌≤◌, ◌++◌, [], ◌∷◌, None, OnOk};
ghost use Rattle.wasm_lang.specs.Instructions.{local_get, store as store_instruction};
ghost use Rattle.wasm_lang_exec.specs.Code.{ε, ◌▹◌, if_block};
ghost use Rattle.wasm_laws_trees.specs.Spelled.{flat};
ghost use Rattle.wasm_laws_write.specs.Lengths.{IsNarrow};
ghost use Rattle.wasm_laws_write.specs.Each.{EachIn};
ghost use Rattle.asm_lang_valid.specs.Scope.{a_view, shift_of};
ghost use Rattle.asm2wasm_translation.specs.Values as code;

use crate::output::Output;
use asm_lang_valid::Element;
use sem_words::{Bin, Rel};
use std::alloc::AllocError;
use wasm_lang::{MemOp, ValType};
use wasm_tree::Instr;

/// The element whose place is on the stack and stays in the local `x`. The heap has `size` bytes.
pub fn load(output: &mut Output, size: usize, x: usize, element: Element) -> Result<(), AllocError>
    requires narrow { EachIn IsNarrow (code.load_code size x (a_view element)) }
    ensures { OnOk result (output.new ≡ output.old ++ flat (code.load_code size x (a_view element))) }
{
    let exponent = exponent_of(element);
    let op = access(element, is_signed(element));
    within(output, size, x)?;
    output.push(Instr::If(Some(ValType::I32)))?;
    output.local_get(x)?;
    output.push(Instr::Load(op, exponent, 0))?;
    output.push(Instr::Else)?;
    output.number(0)?;
    output.push(Instr::End)
}

/// Puts the value on the stack, which is left in the local `y`, into the element whose place is below it.
pub fn store(
    output: &mut Output,
    size: usize,
    x: usize,
    y: usize,
    element: Element,
) -> Result<(), AllocError>
    requires narrow { EachIn IsNarrow (code.store_code size x y (a_view element)) }
    ensures { OnOk result (output.new ≡ output.old ++ flat (code.store_code size x y (a_view element))) }
{
    let exponent = exponent_of(element);
    let op = access(element, false);
    output.local_set(y)?;
    within(output, size, x)?;
    write_if(output, x, y, op, exponent)
}

// Writes the value of the local `y` at the place in the local `x`, if the number on the stack isn't 0.
fn write_if(
    output: &mut Output,
    x: usize,
    y: usize,
    op: MemOp,
    exponent: u32,
) -> Result<(), AllocError>
    requires place { x < 2 ^ 32 }
    requires value { y < 2 ^ 32 }
    ensures { OnOk result (output.new ≡ output.old ++ flat (if_block None (code.plains (local_get x ∷ local_get y ∷ store_instruction op exponent 0 ∷ [])) ε ▹ ε)) }
{
    output.push(Instr::If(None))?;
    output.local_get(x)?;
    output.local_get(y)?;
    output.push(Instr::Store(op, exponent, 0))?;
    output.push(Instr::End)
}

// Whether the element whose place is on the stack lies in the heap.
fn within(output: &mut Output, size: usize, x: usize) -> Result<(), AllocError>
    requires local { x < 2 ^ 32 }
    requires bytes { size < 2 ^ 32 }
    ensures { OnOk result (output.new ≡ output.old ++ flat (code.plains (code.within size x))) }
{
    output.local_tee(x)?;
    output.number(size)?;
    output.push(Instr::Rel32(Rel::LtU))
}

/// Clears the lowest bits of what is on the stack, as many as the exponent says, at most two.
pub fn aligned(output: &mut Output, exponent: u32) -> Result<(), AllocError>
    requires { exponent ≤ 2 }
    ensures { OnOk result (output.new ≡ output.old ++ flat (code.plains (code.aligned exponent))) }
{
    if exponent == 0 {
        return Ok(());
    }
    output.push(Instr::Const32(u32::MAX - (1 << exponent) + 1))?;
    output.push(Instr::Bin32(Bin::And))
}

/// An element has 2 to this number of bytes.
pub fn exponent_of(element: Element) -> u32
    ensures exact { result ≡ shift_of element }
    ensures small { result ≤ 2 }
{
    match element {
        Element::Int8 | Element::Uint8 => 0,
        Element::Int16 | Element::Uint16 => 1,
        Element::Int32 | Element::Uint32 => 2,
    }
}

fn is_signed(element: Element) -> bool
    ensures { result ≡ code.is_signed_element element }
{
    match element {
        Element::Int8 | Element::Int16 => true,
        Element::Uint8 | Element::Uint16 | Element::Int32 | Element::Uint32 => false,
    }
}

fn access(element: Element, signed: bool) -> MemOp
    ensures { result ≡ code.access element signed }
{
    let size = match element {
        Element::Int8 | Element::Uint8 => 1,
        Element::Int16 | Element::Uint16 => 2,
        Element::Int32 | Element::Uint32 => 4,
    };
    MemOp {
        wide: false,
        size,
        signed,
    }
}
