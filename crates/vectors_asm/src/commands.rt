//! Whole calls over files and sinks in memory.
use crate::modules::SUMMING;
use crate::program::{Call, NO_FAULTS, Told, called};
use crate::rows::holds;
use crate::texts::SUM;
use std::alloc::Global;

/// Names and contents of the files.
static FILES: [(&'static str, &'static [u8]); 14] = [
    ("add.js", SUM),
    (
        "times.js",
        b"function m(){\"use asm\";function f(a,b){a=a|0;b=b|0;return a*b|0;}return f;}",
    ),
    (
        "zero.js",
        b"function m(){\"use asm\";function f(){return -0;}return f;}",
    ),
    ("add.wasm", SUMMING),
    ("cut.wasm", b"\0asm"),
    ("empty.wasm", b"\0asm\x01\0\0\0"),
    (
        "untyped.wasm",
        b"\0asm\x01\0\0\0\x03\x02\x01\0\x0a\x04\x01\x02\0\x0b",
    ),
    (
        "table.wasm",
        b"\0asm\x01\0\0\0\x02\x09\x01\x01m\x01t\x01\x70\0\0",
    ),
    (
        "add.wat",
        b"(module (func $f (type $t) (param $a i32) (param $b i32) (result i32) local.get $a local.get $b i32.add)\n(type $t (func (param i32 i32) (result i32))) (export \"f\" (func $f)))",
    ),
    ("float.wat", b"(module (func (type 0) f32.add"),
    (
        "lacking.wat",
        b"(module (type (func (result i32))) (func (type 0)))",
    ),
    ("f.txt", b"call f 2147483647 1\n"),
    ("g.txt", b"# no g\ncall g\n"),
    ("cal.txt", b"cal f\n"),
];

/// The words after the program's name, the exit status, and what is written: to the output where the status is 0, and else to the
/// report.
type Row = (&'static [&'static str], u8, &'static [u8]);

const USAGE: &[u8] = b"usage: bridge COMMAND [--heap N] [--steps N] [FILE] [SCRIPT]\n";

static ROWS: [Row; 62] = [
    (&[], 1, USAGE),
    (&["fly", "add.js"], 1, USAGE),
    (&["asm2wasm"], 1, USAGE),
    (&["asm2wasm", "add.js", "x"], 1, USAGE),
    (&["asm2wasm", "-add.js"], 1, USAGE),
    (&["asm2wasm", "--steps", "5", "add.js"], 1, USAGE),
    (&["asm2wasm", "--heap", "5", "add.js"], 1, USAGE),
    (&["asm2wasm", "--heap", "5000", "x"], 1, USAGE),
    (&["check-asm", "--steps", "1", "x"], 1, USAGE),
    (
        &["asm2wasm", "--heap=4096", "--heap=4096", "add.js"],
        1,
        USAGE,
    ),
    (&["run-wasm", "add.wasm"], 1, USAGE),
    (&["run-asm", "add.js"], 1, USAGE),
    (&["run-asm", "--heap", "5000", "add.js", "f.txt"], 1, USAGE),
    (&["gen"], 1, USAGE),
    (&["gen", "0"], 1, USAGE),
    (&["gen", "010"], 1, USAGE),
    (&["gen", "10001"], 1, USAGE),
    (&["gen", "2", "--heap", "65536"], 1, USAGE),
    (&["gen", "2"], 0, b"functions 2\nasm 182\nwasm 94\njs 655\n"),
    (
        &["gen", "200"],
        0,
        b"functions 200\nasm 12628\nwasm 8412\njs 26427\n",
    ),
    (&["asm2wasm", "add.js"], 0, SUMMING),
    (
        &["asm2wasm", "times.js"],
        2,
        b"asm.js refused: A14 Operand at 59\n",
    ),
    (&["asm2wasm", "no.js"], 7, b"missing: no.js\n"),
    (
        &["check-asm", "add.js"],
        0,
        b"asm.js functions 1 tables 0 exports 1 foreign 0\n",
    ),
    (
        &["check-asm", "times.js"],
        2,
        b"asm.js refused: A14 Operand at 59\n",
    ),
    (
        &["check-asm", "zero.js"],
        2,
        b"asm.js refused: A4 LiteralForm at 43\n",
    ),
    (
        &["check-wasm", "add.wasm"],
        0,
        b"wasm functions 1 imports 0 exports 1\n",
    ),
    (
        &["check-wasm", "cut.wasm"],
        3,
        b"wasm refused: B3 Truncated at 4\n",
    ),
    (
        &["check-wasm", "untyped.wasm"],
        3,
        b"wasm refused: B13 Invalid V1 at section 3 index 0 instruction 0\n",
    ),
    (
        &["show", "add.js"],
        0,
        b"function m(){\"use asm\";\nfunction f(a,b){a=a|0;b=b|0;return a+b|0;}\nreturn f;}\n",
    ),
    (
        &["wasm2wat", "add.wasm"],
        0,
        b"(module\n(type (func (param i32 i32) (result i32)))\n(func (type 0)\nlocal.get 0\nlocal.get 1\ni32.add\n)\n(export \"f\" (func 0))\n)\n",
    ),
    (
        &["wasm2wat", "cut.wasm"],
        3,
        b"wasm refused: B3 Truncated at 4\n",
    ),
    (
        &["wasm2wat", "untyped.wasm"],
        3,
        b"wasm refused: B13 Invalid V1 at section 3 index 0 instruction 0\n",
    ),
    (&["wasm2wat", "--heap", "65536", "add.wasm"], 1, USAGE),
    (&["wat2wasm", "add.wat"], 0, SUMMING),
    (
        &["wat2wasm", "float.wat"],
        10,
        b"wat refused: C9 OutsideInteger at 23\n",
    ),
    (
        &["wat2wasm", "lacking.wat"],
        3,
        b"wasm refused: B13 Invalid V9 at section 10 index 0 instruction 0\n",
    ),
    (&["wat2wasm", "--heap", "65536", "add.wat"], 1, USAGE),
    (
        &["shorten", "add.js"],
        0,
        b"function m(){\"use asm\";\nfunction f(a,b){a=a|0;b=b|0;return a+b|0;}\nreturn f;}\n",
    ),
    (
        &["shorten", "times.js"],
        2,
        b"asm.js refused: A14 Operand at 59\n",
    ),
    (&["shorten", "add.js", "f.txt"], 1, USAGE),
    (&["link", "add.wasm"], 1, USAGE),
    (&["link", "add.wasm", "empty.wasm"], 0, SUMMING),
    (
        &["link", "add.wasm", "add.wasm"],
        11,
        b"link refused: L4 ExportTaken second 0\n",
    ),
    (
        &["link", "table.wasm", "add.wasm"],
        11,
        b"link refused: L1 Profile first 14\n",
    ),
    (
        &["link", "add.wasm", "cut.wasm"],
        3,
        b"wasm refused: B3 Truncated at 4\n",
    ),
    (&["link", "add.wasm", "no.wasm"], 7, b"missing: no.wasm\n"),
    (
        &["link", "cut.wasm", "no.wasm"],
        3,
        b"wasm refused: B3 Truncated at 4\n",
    ),
    (
        &["show", "add.wasm"],
        0,
        b"wasm functions 1 imports 0 exports 1\nfunc 0 (i32 i32) i32 4\n",
    ),
    (
        &["run-asm", "add.js", "f.txt"],
        0,
        b"result -2147483648\nend done\n",
    ),
    (
        &["run-asm", "--steps=0", "--heap=4096", "add.js", "f.txt"],
        0,
        b"still running\n",
    ),
    (
        &["run-asm", "add.js", "g.txt"],
        4,
        b"script refused: line 2\n",
    ),
    (
        &["run-asm", "add.js", "cal.txt"],
        4,
        b"script refused: line 1\n",
    ),
    (&["run-asm", "add.js", "no.txt"], 7, b"missing: no.txt\n"),
    (&["run-asm", "no.js", "no.txt"], 7, b"missing: no.js\n"),
    (
        &["run-asm", "times.js", "no.txt"],
        2,
        b"asm.js refused: A14 Operand at 59\n",
    ),
    (
        &["run-wasm", "add.wasm", "f.txt"],
        0,
        b"result -2147483648\nend done\n",
    ),
    (
        &["run-wasm", "--steps", "0", "add.wasm", "f.txt"],
        0,
        b"still running\n",
    ),
    (
        &["run-wasm", "add.wasm", "g.txt"],
        4,
        b"script refused: line 2\n",
    ),
    (
        &["run-wasm", "add.wasm", "cal.txt"],
        4,
        b"script refused: line 1\n",
    ),
    (&["run-wasm", "add.wasm", "no.txt"], 7, b"missing: no.txt\n"),
    (
        &["run-wasm", "table.wasm", "cal.txt"],
        3,
        b"wasm refused: B14 ImportedTable 0\n",
    ),
];

/// What is told of a call with these words and these faults over all files.
fn with_faults<'w>(alloc: Global, words: &'w [&'w str], faults: [u64; 3]) -> Told {
    let call = Call {
        words,
        options: &[],
        files: &FILES,
        faults,
    };
    called(alloc, &call)
}

#[test]
fn calls_end_as_the_table_says(rt: HostRuntime) {
    for (number, (words, status, written)) in ROWS.iter().enumerate() {
        let told = with_faults(rt.alloc(), words, NO_FAULTS);
        holds(&rt, number, told.is(*status, written));
    }
}

/// Which read, which write of the output and which of the report fails, the exit status, and what is written: the output is a front.
static FAULTS: [([u64; 3], u8, &[u8]); 2] = [
    ([1, 0, 0], 5, b"read fault\n"),
    ([0, 2, 0], 6, b"\0"),
];

#[test]
fn a_failed_read_and_a_failed_write_are_told(rt: HostRuntime) {
    for (number, (faults, status, written)) in FAULTS.iter().enumerate() {
        let told = with_faults(rt.alloc(), &["asm2wasm", "add.js"], *faults);
        holds(&rt, number, told.is(*status, written));
    }
}
