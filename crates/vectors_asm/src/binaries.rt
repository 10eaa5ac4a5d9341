//! Sessions of WebAssembly, and modules that are taken or refused, by the whole program.
use crate::modules::{
    ADDING, BLOCKS, EXTENDING, EXTENDING_WIDE, GLOBAL, IMPORTING, LOADING, LOOPING, MANY_PAGES,
    MULTIPLYING, MUTABLE_IMPORT, PADDED, PAGES, POLYMORPHIC, STORING, TABLE, TABLE_IMPORT,
};
use crate::program::{CHECK_WASM, End, RUN_WASM, Row, all_end, all_print};

pub(crate) const EMPTY: &[u8] = b"\0asm\x01\0\0\0";

static ROWS: [Row; 27] = [
    Row {
        name: "a module without parts",
        module: EMPTY,
        options: &[],
        script: b"",
        printed: b"end done\n",
    },
    Row {
        name: "a sum of 64 bits",
        module: ADDING,
        options: &[],
        script: b"call m 4294967295 4294967295",
        printed: b"result 8589934590\nend done\n",
    },
    Row {
        name: "a step before the end of the sum",
        module: ADDING,
        options: &["--steps", "5"],
        script: b"call m 4294967295 4294967295",
        printed: b"still running\n",
    },
    Row {
        name: "the last step of the sum",
        module: ADDING,
        options: &["--steps", "6"],
        script: b"call m 4294967295 4294967295",
        printed: b"result 8589934590\nend done\n",
    },
    Row {
        name: "the same sum, with longer numbers",
        module: PADDED,
        options: &[],
        script: b"call m 4294967295 4294967295",
        printed: b"result 8589934590\nend done\n",
    },
    Row {
        name: "a product of 64 bits",
        module: MULTIPLYING,
        options: &[],
        script: b"call m 4294967295 4294967295",
        printed: b"result -8589934591\nend done\n",
    },
    Row {
        name: "a load near the end, and one past it",
        module: LOADING,
        options: &[],
        script: b"call l 1\ncall l 65533",
        printed: b"result 84148994\nend trap 2\nheap 0 01020304050000000000000000000000\n",
    },
    Row {
        name: "a store past the end writes nothing",
        module: STORING,
        options: &[],
        script: b"call s 65532 -1",
        printed: b"end trap 2\n",
    },
    Row {
        name: "a store at the end",
        module: STORING,
        options: &[],
        script: b"call s 65528 -2",
        printed: b"returned\nend done\nheap 65520 0000000000000000feffffffffffffff\n",
    },
    Row {
        name: "an entry of the table",
        module: TABLE,
        options: &[],
        script: b"call c 0",
        printed: b"result 6\nend done\n",
    },
    Row {
        name: "an empty entry",
        module: TABLE,
        options: &[],
        script: b"call c 1",
        printed: b"end trap 5\n",
    },
    Row {
        name: "an entry of another type",
        module: TABLE,
        options: &[],
        script: b"call c 2",
        printed: b"end trap 6\n",
    },
    Row {
        name: "an index past the table",
        module: TABLE,
        options: &[],
        script: b"call c 4",
        printed: b"end trap 5\n",
    },
    Row {
        name: "an exported import",
        module: IMPORTING,
        options: &[],
        script: b"call q 9\nreply 0",
        printed: b"import p 9\nreturned\nend done\n",
    },
    Row {
        name: "the last byte of 17 pages",
        module: PAGES,
        options: &[],
        script: b"call r 1114111",
        printed: b"result 0\nend done\n",
    },
    Row {
        name: "the byte after 17 pages",
        module: PAGES,
        options: &[],
        script: b"call r 1114112",
        printed: b"end trap 2\n",
    },
    Row {
        name: "code that is never reached",
        module: POLYMORPHIC,
        options: &[],
        script: b"call f",
        printed: b"returned\nend done\n",
    },
    Row {
        name: "signs of 8 bits",
        module: EXTENDING,
        options: &[],
        script: b"call e 128\ncall e 383\ncall e -1",
        printed: b"result -128\nresult 127\nresult -1\nend done\n",
    },
    Row {
        name: "signs of 32 bits",
        module: EXTENDING_WIDE,
        options: &[],
        script: b"call e 4294967295\ncall e 4294967296",
        printed: b"result -1\nresult 0\nend done\n",
    },
    Row {
        name: "a copy to the next byte",
        module: BLOCKS,
        options: &[],
        script: b"call c 1 0 5",
        printed: b"returned\nend done\nheap 0 01010203040500000000000000000000\n",
    },
    Row {
        name: "a copy past the end",
        module: BLOCKS,
        options: &[],
        script: b"call c 65532 0 5",
        printed: b"end trap 2\nheap 0 01020304050000000000000000000000\n",
    },
    Row {
        name: "copies of nothing",
        module: BLOCKS,
        options: &[],
        script: b"call c 65536 0 0\ncall c 65537 0 0",
        printed: b"returned\nend trap 2\nheap 0 01020304050000000000000000000000\n",
    },
    Row {
        name: "a fill at the end",
        module: BLOCKS,
        options: &[],
        script: b"call z 65534 511 2",
        printed: b"returned\nend done\nheap 0 01020304050000000000000000000000\nheap 65520 0000000000000000000000000000ffff\n",
    },
    Row {
        name: "replies that run out",
        module: LOOPING,
        options: &[],
        script: b"call f\nreply 0\nreply 0\nreply 0",
        printed: b"import g\nimport g\nimport g\nend no-reply g\n",
    },
    Row {
        name: "an import that throws",
        module: LOOPING,
        options: &[],
        script: b"call f\nreply 0\nthrow",
        printed: b"import g\nend stopped g\n",
    },
    Row {
        name: "a loop that goes on",
        module: LOOPING,
        options: &["--steps", "4"],
        script: b"call f\nreply 0\nreply 0\nreply 0",
        printed: b"import g\nstill running\n",
    },
    Row {
        name: "a global that has its line",
        module: GLOBAL,
        options: &[],
        script: b"global g 1",
        printed: b"end done\n",
    },
];

#[test]
fn sessions_are_printed(rt: HostRuntime) {
    all_print(&rt, rt.alloc(), RUN_WASM, &ROWS);
}

static COUNTED: [End; 2] = [
    (EMPTY, b"", 0, b"wasm functions 0 imports 0 exports 0\n"),
    (
        b"\0asm\x01\0\0\0\x01\x05\x80\x80\x80\x80\0",
        b"",
        0,
        b"wasm functions 0 imports 0 exports 0\n",
    ),
];

#[test]
fn modules_are_counted(rt: HostRuntime) {
    all_end(&rt, rt.alloc(), CHECK_WASM, &COUNTED);
}

static LISTED: [End; 2] = [
    (
        ADDING,
        b"",
        0,
        b"wasm functions 1 imports 0 exports 1\nfunc 0 (i64 i64) i64 4\n",
    ),
    (
        IMPORTING,
        b"",
        0,
        b"wasm functions 0 imports 1 exports 1\nimport 0 p (i32) -\n",
    ),
];

#[test]
fn modules_are_listed(rt: HostRuntime) {
    all_end(&rt, rt.alloc(), &["show", "m"], &LISTED);
}

/// The header cut short.
static FRONTS: [End; 8] = [
    (b"", b"", 3, b"wasm refused: B3 Truncated at 0\n"),
    (b"\0", b"", 3, b"wasm refused: B3 Truncated at 1\n"),
    (b"\0a", b"", 3, b"wasm refused: B3 Truncated at 2\n"),
    (b"\0as", b"", 3, b"wasm refused: B3 Truncated at 3\n"),
    (b"\0asm", b"", 3, b"wasm refused: B3 Truncated at 4\n"),
    (b"\0asm\x01", b"", 3, b"wasm refused: B3 Truncated at 5\n"),
    (b"\0asm\x01\0", b"", 3, b"wasm refused: B3 Truncated at 6\n"),
    (
        b"\0asm\x01\0\0",
        b"",
        3,
        b"wasm refused: B3 Truncated at 7\n",
    ),
];

#[test]
fn each_prefix_is_truncated(rt: HostRuntime) {
    all_end(&rt, rt.alloc(), CHECK_WASM, &FRONTS);
}

static REFUSED: [End; 9] = [
    (EMPTY, b"call f", 4, b"script refused: line 1\n"),
    (
        b"\0asm\x01\0\0\0\x01\x05\x80\x80\x80\x80\x10",
        b"",
        3,
        b"wasm refused: B4 Leb at 10\n",
    ),
    (TABLE_IMPORT, b"", 3, b"wasm refused: B14 ImportedTable 0\n"),
    (
        MUTABLE_IMPORT,
        b"",
        3,
        b"wasm refused: B15 MutableImport 0\n",
    ),
    (MANY_PAGES, b"", 3, b"wasm refused: B19 MemoryLarge 4097\n"),
    (
        ADDING,
        b"call m 1 2\ncall m 1",
        4,
        b"script refused: line 2\n",
    ),
    (
        LOADING,
        b"call l 4294967296",
        4,
        b"script refused: line 1\n",
    ),
    (
        ADDING,
        b"call m 1\n\nthrow now",
        4,
        b"script refused: line 3\n",
    ),
    (GLOBAL, b"", 4, b"script refused: line 0\n"),
];

#[test]
fn modules_and_scripts_are_refused(rt: HostRuntime) {
    all_end(&rt, rt.alloc(), RUN_WASM, &REFUSED);
}
