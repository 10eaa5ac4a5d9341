//! Modules that are written: of bytes that they were read of, and of what they own.
use crate::modules::{ADDING, LOADING};
use crate::rows::holds;
use sem_words::{List, Text};
use std::alloc::{AllocError, Global};
use wasm_binary::read;
use wasm_binary_write::write;
use wasm_tree::{Body, Bytes, Code, Instr, MemOp, Module, Segment};

/// These bytes are written of the module that the bytes spell.
pub(crate) fn is_rewritten(alloc: Global, bytes: &[u8], wanted: &[u8]) -> bool {
    let Ok(module) = read(alloc, bytes) else {
        return false;
    };
    match write(alloc, &module) {
        Ok(written) => written.as_slice() == wanted,
        Err(_) => false,
    }
}

/// These bytes are written of the module that the bytes spell, with this body and these segments in place of its own.
pub(crate) fn is_written(
    alloc: Global,
    bytes: &'static [u8],
    body: Body<'static>,
    segments: List<Segment<'static>>,
    wanted: &[u8],
) -> bool {
    let Ok(module) = read(alloc, bytes) else {
        return false;
    };
    let Ok(bodies) = vec![in alloc; body] else {
        return false;
    };
    let module = Module {
        bodies: List::from_vec(bodies),
        segments,
        ..module
    };
    match write(alloc, &module) {
        Ok(written) => written.as_slice() == wanted,
        Err(_) => false,
    }
}

/// `ADDING`, in whose code the number of the second local is padded: local.get 0, local.get 1, i64.add, end.
const PADDED: &[u8] =
    b"\0asm\x01\0\0\0\x01\x07\x01`\x02~~\x01~\x03\x02\x01\0\x07\x05\x01\x01m\0\0\x0a\x0b\x01\x09\0\x20\0\x20\x81\x80\0\x7c\x0b";

#[test]
fn padded_code(rt: HostRuntime) {
    holds(&rt, 0, is_rewritten(rt.alloc(), PADDED, ADDING));
}

const WORD: MemOp = MemOp {
    wide: false,
    size: 4,
    signed: false,
};

// Five bytes at 0, all of them owned.
fn segments(alloc: Global) -> Result<List<Segment<'static>>, AllocError> {
    let segment = Segment {
        memory: 0,
        offset: List::from_vec(vec![in alloc; Instr::Const32(0), Instr::End]?),
        bytes: Bytes::Own(Text::from_bytes(alloc, &[1, 2, 3, 4, 5])?),
    };
    Ok(List::from_vec(vec![in alloc; segment]?))
}

// A function whose code is owned.
fn loading_body(alloc: Global) -> Result<Body<'static>, AllocError> {
    let instrs = vec![in alloc; Instr::LocalGet(0), Instr::Load(WORD, 2, 0), Instr::End]?;
    Ok(Body {
        locals: List::new(alloc),
        code: Code::Own(List::from_vec(instrs)),
    })
}

fn is_loading(alloc: Global) -> Result<bool, AllocError> {
    let body = loading_body(alloc)?;
    let segments = segments(alloc)?;
    Ok(is_written(alloc, LOADING, body, segments, LOADING))
}

#[test]
fn loading(rt: HostRuntime) {
    holds(&rt, 0, matches!(is_loading(rt.alloc()), Ok(true)));
}
