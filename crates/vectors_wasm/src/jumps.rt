//! Where the blocks of small bodies end, and of a deep one.
use crate::rows::holds;
use std::alloc::{AllocError, Global};
use wasm_run_flat::Body;
use wasm_tree::{Code, Instr};

/// What stands at a place of a body. A table can't hold an `Instr`, which may own a list.
#[derive(Clone, Copy)]
enum Held {
    End,
    /// A branch to the innermost block.
    Branch,
    Nothing,
}

/// A body, in the binary format, and how many instructions it has; the places of blocks, and those past their ends; the places of
/// conditions, and those of their second arms; and what stands at places.
struct Row {
    code: &'static [u8],
    len: usize,
    past: &'static [(usize, usize)],
    arms: &'static [(usize, usize)],
    held: &'static [(usize, Held)],
}

fn are_held(body: &Body, held: &[(usize, Held)]) -> bool {
    let mut are = true;
    for (at, held) in held {
        are &= match (body.get(*at), *held) {
            (Some(Instr::End), Held::End) => true,
            (Some(Instr::Br(0)), Held::Branch) => true,
            (None, Held::Nothing) => true,
            _ => false,
        };
    }
    are
}

fn is_as(body: &Body, row: &Row) -> bool {
    let mut is_so = body.len() == row.len && are_held(body, row.held);
    for (at, past) in row.past {
        is_so &= body.past_end(*at) == *past;
    }
    for (at, arm) in row.arms {
        is_so &= body.other_arm(*at) == *arm;
    }
    is_so
}

/// The body of the code, whose instructions it is given as values, is as the row says.
fn is_body(alloc: Global, code: &[u8], row: &Row) -> bool {
    let Ok(instrs) = Code::Lent(code).instrs(alloc) else {
        return false;
    };
    match Body::of(alloc, &Code::Own(instrs)) {
        Ok(body) => is_as(&body, row),
        Err(_) => false,
    }
}

static BODIES: [Row; 3] = [
    // end
    Row {
        code: &[0x0b],
        len: 1,
        past: &[],
        arms: &[],
        held: &[(0, Held::End), (1, Held::Nothing)],
    },
    // loop, block, i32.const 0, br_if 0, end, br 0, end, end
    Row {
        code: &[
            0x03, 0x40, 0x02, 0x40, 0x41, 0, 0x0d, 0, 0x0b, 0x0c, 0, 0x0b, 0x0b,
        ],
        len: 8,
        past: &[(0, 7), (1, 5)],
        arms: &[],
        held: &[(5, Held::Branch)],
    },
    // i32.const 1, if, nop, else, i32.const 0, if, nop, end, end, end: without else its second arm is at its end
    Row {
        code: &[
            0x41, 1, 0x04, 0x40, 0x01, 0x05, 0x41, 0, 0x04, 0x40, 0x01, 0x0b, 0x0b, 0x0b,
        ],
        len: 10,
        past: &[(1, 9), (3, 9), (5, 8)],
        arms: &[(1, 4), (5, 7)],
        held: &[],
    },
];

#[test]
fn blocks_and_arms(rt: HostRuntime) {
    for (number, row) in BODIES.iter().enumerate() {
        holds(&rt, number, is_body(rt.alloc(), row.code, row));
    }
}

// As many blocks as this, each in the one before.
const DEPTH: usize = 300_000;

fn nested(alloc: Global) -> Result<Vec<u8>, AllocError> {
    let mut code = Vec::new(alloc);
    for _ in 0..DEPTH {
        code.extend_from_slice(&[0x02, 0x40])?;
    }
    for _ in 0..DEPTH {
        code.push(0x0b)?;
    }
    code.push(0x0b)?;
    Ok(code)
}

static NESTED: Row = Row {
    code: &[],
    len: 600_001,
    past: &[(0, 600_000), (299_999, 300_001)],
    arms: &[],
    held: &[],
};

#[test]
fn blocks_in_blocks(rt: HostRuntime) {
    match nested(rt.alloc()) {
        Ok(code) => holds(&rt, 0, is_body(rt.alloc(), &code, &NESTED)),
        Err(_) => holds(&rt, 1, false),
    }
}
