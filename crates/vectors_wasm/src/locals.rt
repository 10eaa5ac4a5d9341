//! Locals in runs, read and written. Each module has one function, which takes nothing and gives a number of 32 bits.
use crate::rows::holds;
use crate::writing::{is_rewritten, is_written};
use sem_words::List;
use std::alloc::{AllocError, Global};
use wasm_tree::{Body, Code, Run, ValType};

// i32.const 0, end
const ZERO: &[u8] = &[0x41, 0, 0x0b];

// Such a module without locals, and with five of 32 bits.
const NO_LOCALS: &[u8] =
    b"\0asm\x01\0\0\0\x01\x05\x01\x60\0\x01\x7f\x03\x02\x01\0\x07\x05\x01\x01\x66\0\0\x0a\x06\x01\x04\0\x41\0\x0b";

const FIVE_LOCALS: &[u8] =
    b"\0asm\x01\0\0\0\x01\x05\x01\x60\0\x01\x7f\x03\x02\x01\0\x07\x05\x01\x01\x66\0\0\x0a\x08\x01\x06\x01\x05\x7f\x41\0\x0b";

// A module, and the one that is written of it.
static REWRITTEN: [(&[u8], &[u8]); 3] = [
    // the sizes, then the runs, then the code
    (
        b"\0asm\x01\0\0\0\x01\x05\x01\x60\0\x01\x7f\x03\x02\x01\0\x07\x05\x01\x01\x66\0\0\x0a\x0a\x01\x08\x02\x01\x7f\x01\x7e\x41\0\x0b",
        b"\0asm\x01\0\0\0\x01\x05\x01\x60\0\x01\x7f\x03\x02\x01\0\x07\x05\x01\x01\x66\0\0\x0a\x0a\x01\x08\x02\x01\x7f\x01\x7e\x41\0\x0b",
    ),
    // no locals, twice
    (
        b"\0asm\x01\0\0\0\x01\x05\x01\x60\0\x01\x7f\x03\x02\x01\0\x07\x05\x01\x01\x66\0\0\x0a\x0a\x01\x08\x02\0\x7e\0\x7f\x41\0\x0b",
        NO_LOCALS,
    ),
    // none between others
    (
        b"\0asm\x01\0\0\0\x01\x05\x01\x60\0\x01\x7f\x03\x02\x01\0\x07\x05\x01\x01\x66\0\0\x0a\x0c\x01\x0a\x03\x02\x7f\0\x7e\x03\x7f\x41\0\x0b",
        FIVE_LOCALS,
    ),
];

#[test]
fn runs_are_read_and_the_longest_are_written(rt: HostRuntime) {
    for (number, (bytes, longest)) in REWRITTEN.iter().enumerate() {
        holds(&rt, number, is_rewritten(rt.alloc(), bytes, longest));
    }
}

// A function with these runs of locals.
fn with_runs(alloc: Global, runs: &[Run]) -> Result<Body<'static>, AllocError> {
    Ok(Body {
        locals: List::from_vec(Vec::from_slice(alloc, runs)?),
        code: Code::Lent(ZERO),
    })
}

// Runs, and the module that is written of a function with these.
static WRITTEN: [(&[Run], &[u8]); 3] = [
    (&[], NO_LOCALS),
    (
        &[
            Run {
                count: 2,
                kind: ValType::I32,
            },
            Run {
                count: 0,
                kind: ValType::I64,
            },
            Run {
                count: 3,
                kind: ValType::I32,
            },
        ],
        FIVE_LOCALS,
    ),
    // 2 ^ 33 - 2 locals, which no module may have
    (
        &[
            Run {
                count: u32::MAX,
                kind: ValType::I32,
            },
            Run {
                count: u32::MAX,
                kind: ValType::I32,
            },
        ],
        b"\0asm\x01\0\0\0\x01\x05\x01\x60\0\x01\x7f\x03\x02\x01\0\x07\x05\x01\x01\x66\0\0\x0a\x0c\x01\x0a\x01\xfe\xff\xff\xff\x1f\x7f\x41\0\x0b",
    ),
];

fn are_written(alloc: Global, runs: &[Run], wanted: &[u8]) -> bool {
    match with_runs(alloc, runs) {
        Ok(body) => is_written(alloc, NO_LOCALS, body, List::new(alloc), wanted),
        Err(_) => false,
    }
}

#[test]
fn runs_of_one_type_are_written_as_one(rt: HostRuntime) {
    for (number, (runs, wanted)) in WRITTEN.iter().enumerate() {
        holds(&rt, number, are_written(rt.alloc(), runs, wanted));
    }
}

static RUNS: [Run; 3] = [
    Run {
        count: 2,
        kind: ValType::I32,
    },
    Run {
        count: 0,
        kind: ValType::I32,
    },
    Run {
        count: 1,
        kind: ValType::I64,
    },
];

static TYPES: [ValType; 4] = [ValType::I64, ValType::I32, ValType::I32, ValType::I64];

// Whether the types of all locals of a function with these runs and a parameter of 64 bits are these.
fn are_types(alloc: Global) -> Result<bool, AllocError> {
    let body = with_runs(alloc, &RUNS)?;
    let types = body.local_types(alloc, &[ValType::I64])?;
    Ok(types.as_slice() == TYPES.as_slice())
}

#[test]
fn the_types_of_locals(rt: HostRuntime) {
    holds(&rt, 0, matches!(are_types(rt.alloc()), Ok(true)));
}
