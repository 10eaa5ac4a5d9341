//! Reads and writes that fail, one after the other, by the whole program.
use crate::modules::{ADDING, SUMMING};
use crate::program::{Call, Told, called};
use crate::rows::holds;
use crate::texts::{SUM, USUAL};
use std::alloc::Global;

/// A call over the files `m` and `s`, and all that it writes to its output.
struct Whole {
    words: &'static [&'static str],
    module: &'static [u8],
    script: &'static [u8],
    written: &'static [u8],
}

/// No words but the program's name.
static WORDLESS: Whole = Whole {
    words: &[],
    module: b"",
    script: b"",
    written: b"",
};

/// What is told of the call with these faults.
fn with_faults(alloc: Global, whole: &Whole, faults: [u64; 3]) -> Told {
    let files = [("m", whole.module), ("s", whole.script)];
    let call = Call {
        words: whole.words,
        options: &[],
        files: &files,
        faults,
    };
    called(alloc, &call)
}

/// With a read failing, the first and so on, the call ends with a failed read and an empty output, until it makes fewer reads than that.
fn reads_fail(alloc: Global, whole: &Whole) -> bool {
    for before in 0..10u64 {
        let told = with_faults(alloc, whole, [before + 1, 0, 0]);
        if !told.is(5, b"read fault\n") {
            // Each of its two files was read.
            return 2 <= before && told.is(0, whole.written);
        }
    }
    false
}

static READING: [Whole; 2] = [
    Whole {
        words: &["run-asm", "m", "s"],
        module: SUM,
        script: b"call f 2147483647 1",
        written: b"result -2147483648\nend done\n",
    },
    Whole {
        words: &["run-asm", "m", "s"],
        module: USUAL,
        script: b"global STACKTOP 1000\ncall stackAlloc 5\ncall stackAlloc 0\ncall _put 16 -2\nreply 0",
        written: b"result 1000\nresult 1008\nimport abort -2\nresult -6\nend done\nheap 16 fafffffffe0000000000000000000000\n",
    },
];

#[test]
fn each_read_in_turn_fails(rt: HostRuntime) {
    for (number, whole) in READING.iter().enumerate() {
        holds(&rt, number, reads_fail(rt.alloc(), whole));
    }
}

/// With the write behind so many failing, the output is a front of the whole, and so many bytes long.
fn is_front(told: &Told, whole: &Whole, before: usize) -> bool {
    told.status == 6 && told.written.len() == before && whole.written.starts_with(&told.written)
}

/// With a write failing, the first and so on, the bytes before it stand in the output, until the call makes fewer writes than that.
fn writes_fail(alloc: Global, whole: &Whole) -> bool {
    for before in 0..1000usize {
        let told = with_faults(alloc, whole, [0, before as u64 + 1, 0]);
        if !is_front(&told, whole, before) {
            return before == whole.written.len() && told.is(0, whole.written);
        }
    }
    false
}

static WRITING: [Whole; 2] = [
    Whole {
        words: &["asm2wasm", "m"],
        module: SUM,
        script: b"",
        written: SUMMING,
    },
    Whole {
        words: &["run-wasm", "m", "s"],
        module: ADDING,
        script: b"call m 4294967295 4294967295",
        written: b"result 8589934590\nend done\n",
    },
];

#[test]
fn each_write_in_turn_fails(rt: HostRuntime) {
    for (number, whole) in WRITING.iter().enumerate() {
        holds(&rt, number, writes_fail(rt.alloc(), whole));
    }
}

#[test]
fn the_report_fails(rt: HostRuntime) {
    let told = with_faults(rt.alloc(), &WORDLESS, [0, 0, 1]);
    holds(&rt, 0, told.is(6, b""));
}
