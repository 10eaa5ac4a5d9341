//! Sessions of asm.js, by the modules of WebAssembly that their texts are translated to.
use crate::calls::ROWS;
use crate::pieces::{Part, joined};
use crate::program::{CHECK_WASM, RUN_WASM, Row, over};
use crate::rows::holds;
use std::alloc::Global;

const ASM2WASM: &[&str] = &["asm2wasm", "m"];

/// The translated module is accepted, and prints what the row says.
fn prints_the_same(alloc: Global, row: &Row) -> bool {
    let translated = over(alloc, ASM2WASM, row.options, row.module, b"");
    let module = translated.written.as_slice();
    translated.status == 0
        && over(alloc, CHECK_WASM, &[], module, b"").status == 0
        && over(alloc, RUN_WASM, &[], module, row.script).is(0, row.printed)
}

#[test]
fn translated_sessions_are_printed(rt: HostRuntime) {
    for (number, row) in ROWS.iter().enumerate() {
        holds(&rt, number, prints_the_same(rt.alloc(), row));
    }
}

/// Members with long names, each called by two shapes: an import has the name of the member that is called.
static LONG_MEMBERS: [Part; 3] = [
    (b"function m(s,o){\"use asm\";var a=o.", b"n", 300),
    (b"a,b=o.", b"n", 300),
    (b"b;function f(){a(1);b(2);a(3,4);b();}return f;}", b"", 0),
];

static CALLED: [Part; 5] = [
    (b"import ", b"n", 300),
    (b"a 1\nimport ", b"n", 300),
    (b"b 2\nimport ", b"n", 300),
    (b"a 3 4\nimport ", b"n", 300),
    (b"b\nreturned\nend done\n", b"", 0),
];

fn keeps_names(alloc: Global, text: &[u8], printed: &[u8]) -> bool {
    let translated = over(alloc, ASM2WASM, &[], text, b"");
    let script = b"call f\nreply 0\nreply 0\nreply 0\nreply 0";
    translated.status == 0 && over(alloc, RUN_WASM, &[], &translated.written, script).is(0, printed)
}

#[test]
fn long_members_keep_their_names(rt: HostRuntime) {
    let Ok(text) = joined(rt.alloc(), &LONG_MEMBERS) else {
        return holds(&rt, 1, false);
    };
    match joined(rt.alloc(), &CALLED) {
        Ok(printed) => holds(&rt, 0, keeps_names(rt.alloc(), &text, &printed)),
        Err(_) => holds(&rt, 2, false),
    }
}
