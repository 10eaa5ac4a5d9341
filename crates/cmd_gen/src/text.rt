//! The text of so many functions.

ghost use Rattle.std.specs.Prelude.{◌≡◌, ◌≤◌, ◌++◌, length, IfOk, OnOk, codes, decimal};
ghost use Rattle.gen_lang.specs.Recipe as spec;

use itoa::Buffer;
use std::alloc::{AllocError, Global};

const HEADING: &[u8] =
    b"function gen(stdlib,foreign,heap){\"use asm\";var H=new stdlib.Int32Array(heap);\n";

const FIRST_LINE: &[u8] = b"function f0(x){x=x|0;return x|0;}\n";

fn push_number(text: &mut Vec<u8>, number: u32) -> Result<(), AllocError>
    ensures { OnOk result (text.new.items ≡ text.old.items ++ decimal number) }
{
    let mut digits = Buffer::new();
    text.extend_from_slice(digits.format(number).as_bytes())
}

// The name of the function with this number.
fn push_name(text: &mut Vec<u8>, number: u32) -> Result<(), AllocError>
    ensures { OnOk result (text.new.items ≡ text.old.items ++ spec.name_of number) }
{
    text.push(b'f')?;
    push_number(text, number)?;
    Ok(())
}

// The line of a function that calls another one, up to its name in the sum.
fn push_front(text: &mut Vec<u8>, callee: u32, number: u32) -> Result<(), AllocError>
    ensures { OnOk result (text.new.items
        ≡ text.old.items ++ (codes "function " ++ (spec.name_of number ++ (codes "(x){x=x|0;x=(" ++ spec.name_of callee)))) }
{
    text.extend_from_slice(b"function ")?;
    push_name(text, number)?;
    text.extend_from_slice(b"(x){x=x|0;x=(")?;
    push_name(text, callee)?;
    Ok(())
}

// The rest of the line.
fn push_back(text: &mut Vec<u8>, number: u32) -> Result<(), AllocError>
    ensures { OnOk result (text.new.items
        ≡ text.old.items ++ (codes "(x)|0)+" ++ (decimal number ++ (codes "|0;H[" ++ (decimal number ++ codes "]=x;return x|0;}\n"))))) }
{
    text.extend_from_slice(b"(x)|0)+")?;
    push_number(text, number)?;
    text.extend_from_slice(b"|0;H[")?;
    push_number(text, number)?;
    text.extend_from_slice(b"]=x;return x|0;}\n")?;
    Ok(())
}

// The line of a function that calls another one.
fn push_line(text: &mut Vec<u8>, callee: u32, number: u32) -> Result<(), AllocError>
    ensures { OnOk result (text.new.items ≡ text.old.items ++ spec.calling_line callee number) }
{
    push_front(text, callee, number)?;
    push_back(text, number)?;
    Ok(())
}

// The lines of all functions.

fn push_lines(text: &mut Vec<u8>, functions: u32) -> Result<(), AllocError>
    requires { 1 ≤ functions }
    ensures { OnOk result (text.new.items ≡ text.old.items ++ spec.lines_from 0 functions) }
{
    text.extend_from_slice(FIRST_LINE)?;
    for number in 1..functions {
        push_line(text, number - 1, number)?;
    }
    Ok(())
}

// The text of so many functions.
fn written(alloc: Global, functions: u32) -> Result<Vec<u8>, AllocError>
    requires { 1 ≤ functions }
    ensures { IfOk result (λ text. text.items ≡ spec.recipe functions) }
{
    let mut text = Vec::from_slice(alloc, HEADING)?;
    push_lines(&mut text, functions)?;
    text.extend_from_slice(b"return ")?;
    push_name(&mut text, functions - 1)?;
    text.extend_from_slice(b";}\n")?;
    Ok(text)
}

/// The text of so many functions, at least one and at most 10,000.
pub fn recipe(alloc: Global, functions: u32) -> Result<Vec<u8>, AllocError>
    requires some { 1 ≤ functions }
    requires few { functions ≤ 10000 }
    ensures text { IfOk result (λ text. text.items ≡ spec.recipe functions) }
    ensures short { IfOk result (λ text. length text.items ≤ 16777216) }
{
    let text = written(alloc, functions)?;
    Ok(text)
}
