//! Large modules, written and read again; `bench/read_write_wasm.py` measures these tests.
use crate::rows::holds;
use crate::writing::is_rewritten;
use sem_words::{Bin, List};
use std::alloc::{AllocError, Global};
use std::process::Abort;
use wasm_binary::read;
use wasm_binary_write::write;
use wasm_tree::{Body, Code, Instr, Module};

/// A module with the type of each function alone: from a number of 32 bits to one.
const TYPES: &[u8] = b"\0asm\x01\0\0\0\x01\x06\x01`\x01\x7f\x01\x7f";

/// A function adds its number to what the function before it gives.
fn body(alloc: Global, number: u32) -> Result<Body<'static>, AllocError> {
    let mut code = vec![in alloc; Instr::LocalGet(0)]?;
    if number > 0 {
        code.push(Instr::Call(number - 1))?;
    }
    code.push(Instr::Const32(number))?;
    code.push(Instr::Bin32(Bin::Add))?;
    code.push(Instr::End)?;
    Ok(Body {
        locals: List::new(alloc),
        code: Code::Own(List::from_vec(code)),
    })
}

/// The module gets so many functions.
fn put_functions(
    module: &mut Module<'static>,
    alloc: Global,
    count: u32,
) -> Result<(), AllocError> {
    let mut bodies = Vec::new(alloc);
    for number in 0..count {
        bodies.push(body(alloc, number)?)?;
    }
    module.functions = List::from_vec(vec![in alloc; 0u32; count as usize]?);
    module.bodies = List::from_vec(bodies);
    Ok(())
}

/// What is written of a module of so many functions; nothing where memory runs out.
fn written(alloc: Global, count: u32) -> Vec<u8> {
    let Ok(mut module) = read(alloc, TYPES) else {
        return Vec::new(alloc);
    };
    match put_functions(&mut module, alloc, count) {
        Ok(()) => {}
        Err(_) => return Vec::new(alloc),
    }
    match write(alloc, &module) {
        Ok(bytes) => bytes,
        Err(_) => Vec::new(alloc),
    }
}

/// The module of so many functions is written, read, and written again as the same bytes: at least nine for each function.
fn is_written_and_read(rt: &impl Abort, alloc: Global, count: u32) {
    let bytes = written(alloc, count);
    holds(rt, 0, bytes.len() / 9 >= count as usize);
    holds(rt, 1, is_rewritten(alloc, &bytes, &bytes));
}

#[test]
fn functions_10000(rt: HostRuntime) {
    is_written_and_read(&rt, rt.alloc(), 10_000);
}

#[test]
fn functions_20000(rt: HostRuntime) {
    is_written_and_read(&rt, rt.alloc(), 20_000);
}

#[test]
fn functions_40000(rt: HostRuntime) {
    is_written_and_read(&rt, rt.alloc(), 40_000);
}
