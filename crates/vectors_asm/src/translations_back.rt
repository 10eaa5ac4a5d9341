//! Sessions of WebAssembly, by the texts of asm.js that their modules are translated to.
use crate::binaries::EMPTY;
use crate::modules::{
    ADDING, BLOCKS, COMPARING, COUNTING, EXTENDING, EXTENDING_WIDE, GLOBAL, IMPORTING, LOADING,
    LOOPING, MANY_PAGES, MULTIPLYING, MUTABLE_IMPORT, PADDED, PAGES, POLYMORPHIC, ROTATING,
    STORING, TABLE, TABLE_IMPORT,
};
use crate::program::{CHECK_ASM, End, RUN_ASM, Row, all_end, over};
use crate::rows::holds;
use cmd_check_wasm::check_bytes;
use std::alloc::Global;
use wasm2js::{profile, translate};

// The scripts are in the calling form of the translation, and what is printed is what node prints of the texts.
static ROWS: [Row; 26] = [
    Row {
        name: "a module without parts",
        module: EMPTY,
        options: &[],
        script: b"call $init",
        printed: b"returned\nend done\n",
    },
    Row {
        name: "a sum of 64 bits",
        module: ADDING,
        options: &[],
        script: b"call $init\ncall m 4294967295 0 4294967295 0\ncall $hi",
        printed: b"returned\nresult -2\nresult 1\nend done\n",
    },
    Row {
        name: "the same sum, with longer numbers",
        module: PADDED,
        options: &[],
        script: b"call $init\ncall m 4294967295 0 4294967295 0\ncall $hi",
        printed: b"returned\nresult -2\nresult 1\nend done\n",
    },
    Row {
        name: "leading zeros of 64 bits",
        module: COUNTING,
        options: &[],
        script: b"call $init\ncall z 1 0\ncall $hi",
        printed: b"returned\nresult 63\nresult 0\nend done\n",
    },
    Row {
        name: "comparisons that the low words decide, and the high words",
        module: COMPARING,
        options: &[],
        script: b"call $init\ncall b 1 0 2 0\ncall b 0 1 4294967295 0",
        printed: b"returned\nresult 1\nresult 0\nend done\n",
    },
    Row {
        name: "a load near the end, and one past it",
        module: LOADING,
        options: &["--heap", "65536"],
        script: b"call $init\ncall l 1\ncall l 65533",
        printed: b"returned\nresult 84148994\nend stopped $trap 2\nheap 0 01020304050000000000000000000000\n",
    },
    Row {
        name: "a store past the end writes nothing",
        module: STORING,
        options: &["--heap", "65536"],
        script: b"call $init\ncall s 65532 4294967295 4294967295",
        printed: b"returned\nend stopped $trap 2\n",
    },
    Row {
        name: "a store at the end",
        module: STORING,
        options: &["--heap", "65536"],
        script: b"call $init\ncall s 65528 4294967294 4294967295",
        printed: b"returned\nreturned\nend done\nheap 65520 0000000000000000feffffffffffffff\n",
    },
    Row {
        name: "an entry of the table",
        module: TABLE,
        options: &[],
        script: b"call $init\ncall c 0",
        printed: b"returned\nresult 6\nend done\n",
    },
    Row {
        name: "an empty entry",
        module: TABLE,
        options: &[],
        script: b"call $init\ncall c 1",
        printed: b"returned\nend stopped $trap 5\n",
    },
    Row {
        name: "an entry of another type",
        module: TABLE,
        options: &[],
        script: b"call $init\ncall c 2",
        printed: b"returned\nend stopped $trap 6\n",
    },
    Row {
        name: "an index past the table",
        module: TABLE,
        options: &[],
        script: b"call $init\ncall c 4",
        printed: b"returned\nend stopped $trap 5\n",
    },
    Row {
        name: "an exported import",
        module: IMPORTING,
        options: &[],
        script: b"call $init\ncall q 9\nreply 0",
        printed: b"returned\nimport p 9\nreturned\nend done\n",
    },
    Row {
        name: "the last byte of 17 pages",
        module: PAGES,
        options: &["--heap", "2097152"],
        script: b"call $init\ncall r 1114111",
        printed: b"returned\nresult 0\nend done\n",
    },
    Row {
        name: "the byte after 17 pages",
        module: PAGES,
        options: &["--heap", "2097152"],
        script: b"call $init\ncall r 1114112",
        printed: b"returned\nend stopped $trap 2\n",
    },
    Row {
        name: "code that is never reached",
        module: POLYMORPHIC,
        options: &[],
        script: b"call $init\ncall f",
        printed: b"returned\nreturned\nend done\n",
    },
    Row {
        name: "signs of 8 bits",
        module: EXTENDING,
        options: &[],
        script: b"call $init\ncall e 128\ncall e 383\ncall e -1",
        printed: b"returned\nresult -128\nresult 127\nresult -1\nend done\n",
    },
    Row {
        name: "signs of 32 bits",
        module: EXTENDING_WIDE,
        options: &[],
        script: b"call $init\ncall e 4294967295 0\ncall $hi\ncall e 0 1\ncall $hi\ncall e 2147483648 0\ncall $hi",
        printed: b"returned\nresult -1\nresult -1\nresult 0\nresult 0\nresult -2147483648\nresult -1\nend done\n",
    },
    Row {
        name: "a copy to the next byte",
        module: BLOCKS,
        options: &["--heap", "65536"],
        script: b"call $init\ncall c 1 0 5",
        printed: b"returned\nreturned\nend done\nheap 0 01010203040500000000000000000000\n",
    },
    Row {
        name: "a copy past the end",
        module: BLOCKS,
        options: &["--heap", "65536"],
        script: b"call $init\ncall c 65532 0 5",
        printed: b"returned\nend stopped $trap 2\nheap 0 01020304050000000000000000000000\n",
    },
    Row {
        name: "copies of nothing",
        module: BLOCKS,
        options: &["--heap", "65536"],
        script: b"call $init\ncall c 65536 0 0\ncall c 65537 0 0",
        printed: b"returned\nreturned\nend stopped $trap 2\nheap 0 01020304050000000000000000000000\n",
    },
    Row {
        name: "a fill at the end",
        module: BLOCKS,
        options: &["--heap", "65536"],
        script: b"call $init\ncall z 65534 511 2",
        printed: b"returned\nreturned\nend done\nheap 0 01020304050000000000000000000000\nheap 65520 0000000000000000000000000000ffff\n",
    },
    Row {
        name: "replies that run out",
        module: LOOPING,
        options: &[],
        script: b"call $init\ncall f\nreply 0\nreply 0\nreply 0",
        printed: b"returned\nimport g\nimport g\nimport g\nend no-reply g\n",
    },
    Row {
        name: "an import that throws",
        module: LOOPING,
        options: &[],
        script: b"call $init\ncall f\nreply 0\nthrow",
        printed: b"returned\nimport g\nend stopped g\n",
    },
    Row {
        name: "a global that has its line",
        module: GLOBAL,
        options: &[],
        script: b"global g 1\ncall $init",
        printed: b"returned\nend done\n",
    },
    Row {
        name: "a rotation of 64 bits",
        module: ROTATING,
        options: &[],
        script: b"call $init\ncall r 2309737967 19088743 36 0\ncall $hi\ncall r 4294967294 4294967295 64 0\ncall $hi\ncall r 1 0 4294967295 4294967295\ncall $hi",
        printed: b"returned\nresult 305419896\nresult -1698898192\nresult -2\nresult -1\nresult 0\nresult -2147483648\nend done\n",
    },
];

static REFUSED: [End; 4] = [
    (TABLE_IMPORT, b"", 3, b"wasm refused: B14 ImportedTable 0\n"),
    (
        MUTABLE_IMPORT,
        b"",
        3,
        b"wasm refused: B15 MutableImport 0\n",
    ),
    (MANY_PAGES, b"", 3, b"wasm refused: B19 MemoryLarge 4097\n"),
    (MULTIPLYING, b"", 3, b"wasm refused: B24 WideMulDiv 0\n"),
];

const WASM2JS: &[&str] = &["wasm2js", "m"];

/// The text of the translated module is accepted, and prints what the row says.
fn prints_the_same(alloc: Global, row: &Row) -> bool {
    let translated = over(alloc, WASM2JS, &[], row.module, b"");
    let text = translated.written.as_slice();
    translated.status == 0
        && over(alloc, CHECK_ASM, &[], text, b"").status == 0
        && over(alloc, RUN_ASM, row.options, text, row.script).is(0, row.printed)
}

#[test]
fn sessions_translated_back_are_printed(rt: HostRuntime) {
    for (number, row) in ROWS.iter().enumerate() {
        holds(&rt, number, prints_the_same(rt.alloc(), row));
    }
}

#[test]
fn modules_beyond_the_profile_are_refused(rt: HostRuntime) {
    all_end(&rt, rt.alloc(), WASM2JS, &REFUSED);
}

/// Whether a line of the text begins with the front, and has the word in it.
fn has_line(text: &[u8], front: &[u8], word: &[u8]) -> bool {
    let mut is_start = true;
    let mut is_inside = false;
    for at in 0..text.len() {
        let rest = &text[at..];
        if is_start {
            is_inside = rest.starts_with(front);
        }
        if is_inside && rest.starts_with(word) {
            return true;
        }
        is_start = text[at] == b'\n';
    }
    false
}

/// A function of the module calls a helper, which stands in the text beside it.
#[test]
fn a_rotation_is_a_call_of_a_helper(rt: HostRuntime) {
    let text = over(rt.alloc(), WASM2JS, &[], ROTATING, b"").written;
    holds(&rt, 0, has_line(&text, b"function f", b"$rotl("));
    holds(&rt, 1, has_line(&text, b"function $rotl(", b"return"));
}

/// How many functions the accepted module has that stands for the one that the bytes spell; none where there is none.
fn functions_of(alloc: Global, bytes: &[u8]) -> usize {
    let Ok(valid) = check_bytes(alloc, bytes) else {
        return 0;
    };
    match profile(&valid) {
        Ok(()) => {}
        Err(_) => return 0,
    }
    match translate(alloc, &valid) {
        Ok(checked) => checked.module().functions.len(),
        Err(_) => 0,
    }
}

/// A function, the helpers, `$init` and `$hi`.
#[test]
fn a_translation_is_given_as_an_accepted_module(rt: HostRuntime) {
    holds(&rt, 0, functions_of(rt.alloc(), ADDING) > 3);
}
