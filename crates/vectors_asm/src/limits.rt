//! Texts as high and blocks as deep as the limits allow, and counts that are too large, by the whole program.
use crate::pieces::{Part, joined};
use crate::program::{CHECK_ASM, CHECK_WASM, End, RUN_ASM, all_end, over};
use crate::rows::holds;
use std::alloc::{AllocError, Global};

const COUNTED: &[u8] = b"asm.js functions 1 tables 0 exports 1 foreign 0\n";

static LARGE_COUNTS: [End; 2] = [
    (
        b"\0asm\x01\0\0\0\x01\x05\xff\xff\xff\xff\x0f",
        b"",
        3,
        b"wasm refused: B12 Limit at 10\n",
    ),
    (
        b"\0asm\x01\0\0\0\x07\x05\xff\xff\xff\xff\x0f",
        b"",
        3,
        b"wasm refused: B6 SectionSize at 15\n",
    ),
];

#[test]
fn counts_that_are_too_large(rt: HostRuntime) {
    all_end(&rt, rt.alloc(), CHECK_WASM, &LARGE_COUNTS);
}

/// The words of a call, the parts of the file `m`, the script, the status, and what is written.
type Row = (
    &'static [&'static str],
    &'static [Part],
    &'static [u8],
    u8,
    &'static [u8],
);

fn ends(alloc: Global, row: &Row) -> bool {
    let (words, parts, script, status, written) = *row;
    match joined(alloc, parts) {
        Ok(text) => over(alloc, words, &[], &text, script).is(status, written),
        Err(_) => false,
    }
}

/// A function of one parameter, up to what it returns.
const NEGATING: &[u8] = b"function m(){\"use asm\";function f(x){x=x|0;return ";

/// A function, up to its statements.
const NOTHING_YET: &[u8] = b"function m(){\"use asm\";function f(){";

static ROWS: [Row; 6] = [
    // a function that negates its argument
    (
        RUN_ASM,
        &[(NEGATING, b"!", 995), (b"x|0;}return f;}", b"", 0)],
        b"call f 5\ncall f 0",
        0,
        b"result 0\nresult 1\nend done\n",
    ),
    (
        RUN_ASM,
        &[(NEGATING, b"!", 996), (b"x|0;}return f;}", b"", 0)],
        b"call f 5\ncall f 0",
        2,
        b"asm.js refused: A7 Height at 1060\n",
    ),
    // a function of loops without blocks, one inside another, which one semicolon ends
    (
        CHECK_ASM,
        &[(NOTHING_YET, b"while(1)", 997), (b";}return f;}", b"", 0)],
        b"",
        0,
        COUNTED,
    ),
    (
        CHECK_ASM,
        &[(NOTHING_YET, b"while(1)", 998), (b";}return f;}", b"", 0)],
        b"",
        2,
        b"asm.js refused: A7 Height at 8031\n",
    ),
    (
        CHECK_ASM,
        &[
            (NOTHING_YET, b"while(1)", 100_000),
            (b";}return f;}", b"", 0),
        ],
        b"",
        2,
        b"asm.js refused: A7 Height at 800036\n",
    ),
    // a module with one function, of nested blocks
    (
        WASM2JS,
        &[
            (
                b"\0asm\x01\0\0\0\x01\x04\x01`\0\0\x03\x02\x01\0\x0a\x94\x15\x01\x91\x15\0",
                b"\x02@",
                901,
            ),
            (b"", b"\x0b", 901),
            (b"\x0b", b"", 0),
        ],
        b"",
        3,
        b"wasm refused: B20 Levels 901\n",
    ),
];

#[test]
fn the_highest_of_a_kind(rt: HostRuntime) {
    for (number, row) in ROWS.iter().enumerate() {
        holds(&rt, number, ends(rt.alloc(), row));
    }
}

const WASM2JS: &[&str] = &["wasm2js", "m"];

/// A level less than in the last row.
static DEEPEST: [Part; 3] = [
    (
        b"\0asm\x01\0\0\0\x01\x04\x01`\0\0\x03\x02\x01\0\x0a\x91\x15\x01\x8e\x15\0",
        b"\x02@",
        900,
    ),
    (b"", b"\x0b", 900),
    (b"\x0b", b"", 0),
];

/// The text of the translation runs.
fn is_translated(alloc: Global, module: &[u8]) -> bool {
    let text = over(alloc, WASM2JS, &[], module, b"").written;
    over(alloc, RUN_ASM, &[], &text, b"call $init").is(0, b"returned\nend done\n")
}

#[test]
fn the_deepest_blocks_are_translated(rt: HostRuntime) {
    match joined(rt.alloc(), &DEEPEST) {
        Ok(module) => holds(&rt, 0, is_translated(rt.alloc(), &module)),
        Err(_) => holds(&rt, 1, false),
    }
}

/// A function of blocks with labels of their own, so many, one inside another.
fn blocks(alloc: Global, count: usize) -> Result<Vec<u8>, AllocError> {
    let mut text = Vec::from_slice(alloc, NOTHING_YET)?;
    for number in 0..count {
        text.extend_from_slice(format!(in alloc; "a{number}:{{")?.as_bytes())?;
    }
    text.extend_from_slice(&joined(alloc, &[(b"", b"}", count), (b"}return f;}", b"", 0)])?)?;
    Ok(text)
}

/// How many blocks, the status, and the line: the fault is the last byte.
static BLOCKS: [(usize, u8, &[u8]); 2] = [
    (998, 0, COUNTED),
    (999, 2, b"asm.js refused: A7 Height at 6929\n"),
];

fn is_told(alloc: Global, count: usize, status: u8, line: &[u8]) -> bool {
    match blocks(alloc, count) {
        Ok(text) => over(alloc, CHECK_ASM, &[], &text, b"").is(status, line),
        Err(_) => false,
    }
}

#[test]
fn the_highest_block_is_accepted(rt: HostRuntime) {
    for (number, (count, status, line)) in BLOCKS.iter().enumerate() {
        holds(&rt, number, is_told(rt.alloc(), *count, *status, line));
    }
}
