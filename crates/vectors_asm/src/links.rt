//! Pairs of modules that are linked, with a session of each, and one that just isn't for each row, by the whole program.
use crate::program::{End, RUN_WASM, all_end, over};
use crate::rows::holds;
use std::alloc::Global;

/// What a pair shows, both modules, a script, and what is printed.
type Row = (
    &'static str,
    &'static [u8],
    &'static [u8],
    &'static [u8],
    &'static [u8],
);

static LINKED: [Row; 19] = [
    (
        "inc and two",
        b"\0asm\x01\0\0\0\x01\x06\x01`\x01\x7f\x01\x7f\x03\x02\x01\0\x07\x07\x01\x03inc\0\0\x0a\x09\x01\x07\0 \0A\x01j\x0b",
        b"\0asm\x01\0\0\0\x01\x06\x01`\x01\x7f\x01\x7f\x02\x0b\x01\x03env\x03inc\0\0\x03\x02\x01\0\x07\x07\x01\x03two\0\x01\x0a\x0a\x01\x08\0 \0\x10\0\x10\0\x0b",
        b"call two 5\n",
        b"result 7\nend done\n",
    ),
    (
        "two without inc: its host answers",
        b"\0asm\x01\0\0\0\x01\x06\x01`\x01\x7f\x01\x7f\x02\x0b\x01\x03env\x03inc\0\0\x03\x02\x01\0\x07\x07\x01\x03two\0\x01\x0a\x0a\x01\x08\0 \0\x10\0\x10\0\x0b",
        b"\0asm\x01\0\0\0\x01\x0b\x02`\x02\x7f\x7f\x01\x7f`\0\x01\x7f\x02\x0b\x01\x03env\x03log\0\0\x03\x02\x01\x01\x07\x08\x01\x04both\0\x01\x0a\x0a\x01\x08\0A\x04A\x05\x10\0\x0b",
        b"call two 5\nreply 6\nreply 7\n",
        b"import inc 5\nimport inc 6\nresult 7\nend done\n",
    ),
    (
        "each table's own entry",
        b"\0asm\x01\0\0\0\x01\x0a\x02`\0\x01\x7f`\x01\x7f\x01\x7f\x03\x03\x02\0\x01\x04\x04\x01p\0\x01\x07\x05\x01\x01a\0\x01\x09\x07\x01\0A\0\x0b\x01\0\x0a\x0e\x02\x04\0A\x07\x0b\x07\0 \0\x11\0\0\x0b",
        b"\0asm\x01\0\0\0\x01\x0a\x02`\0\x01\x7f`\x01\x7f\x01\x7f\x03\x03\x02\0\x01\x04\x04\x01p\0\x01\x07\x05\x01\x01c\0\x01\x09\x07\x01\0A\0\x0b\x01\0\x0a\x0e\x02\x04\0A\x09\x0b\x07\0 \0\x11\0\0\x0b",
        b"call a 0\ncall c 0\n",
        b"result 7\nresult 9\nend done\n",
    ),
    (
        "past the first's own table",
        b"\0asm\x01\0\0\0\x01\x0a\x02`\0\x01\x7f`\x01\x7f\x01\x7f\x03\x03\x02\0\x01\x04\x04\x01p\0\x01\x07\x05\x01\x01a\0\x01\x09\x07\x01\0A\0\x0b\x01\0\x0a\x0e\x02\x04\0A\x07\x0b\x07\0 \0\x11\0\0\x0b",
        b"\0asm\x01\0\0\0\x01\x0a\x02`\0\x01\x7f`\x01\x7f\x01\x7f\x03\x03\x02\0\x01\x04\x04\x01p\0\x01\x07\x05\x01\x01c\0\x01\x09\x07\x01\0A\0\x0b\x01\0\x0a\x0e\x02\x04\0A\x09\x0b\x07\0 \0\x11\0\0\x0b",
        b"call a 1\n",
        b"end trap 5\n",
    ),
    (
        "past the second's own table, where the first's begins again",
        b"\0asm\x01\0\0\0\x01\x0a\x02`\0\x01\x7f`\x01\x7f\x01\x7f\x03\x03\x02\0\x01\x04\x04\x01p\0\x01\x07\x05\x01\x01a\0\x01\x09\x07\x01\0A\0\x0b\x01\0\x0a\x0e\x02\x04\0A\x07\x0b\x07\0 \0\x11\0\0\x0b",
        b"\0asm\x01\0\0\0\x01\x0a\x02`\0\x01\x7f`\x01\x7f\x01\x7f\x03\x03\x02\0\x01\x04\x04\x01p\0\x01\x07\x05\x01\x01c\0\x01\x09\x07\x01\0A\0\x0b\x01\0\x0a\x0e\x02\x04\0A\x09\x0b\x07\0 \0\x11\0\0\x0b",
        b"call c 1\n",
        b"end trap 5\n",
    ),
    (
        "the greatest index, whose place would wrap",
        b"\0asm\x01\0\0\0\x01\x0a\x02`\0\x01\x7f`\x01\x7f\x01\x7f\x03\x03\x02\0\x01\x04\x04\x01p\0\x01\x07\x05\x01\x01a\0\x01\x09\x07\x01\0A\0\x0b\x01\0\x0a\x0e\x02\x04\0A\x07\x0b\x07\0 \0\x11\0\0\x0b",
        b"\0asm\x01\0\0\0\x01\x0a\x02`\0\x01\x7f`\x01\x7f\x01\x7f\x03\x03\x02\0\x01\x04\x04\x01p\0\x01\x07\x05\x01\x01c\0\x01\x09\x07\x01\0A\0\x0b\x01\0\x0a\x0e\x02\x04\0A\x09\x0b\x07\0 \0\x11\0\0\x0b",
        b"call c -1\n",
        b"end trap 5\n",
    ),
    (
        "the same by its unsigned reading",
        b"\0asm\x01\0\0\0\x01\x0a\x02`\0\x01\x7f`\x01\x7f\x01\x7f\x03\x03\x02\0\x01\x04\x04\x01p\0\x01\x07\x05\x01\x01a\0\x01\x09\x07\x01\0A\0\x0b\x01\0\x0a\x0e\x02\x04\0A\x07\x0b\x07\0 \0\x11\0\0\x0b",
        b"\0asm\x01\0\0\0\x01\x0a\x02`\0\x01\x7f`\x01\x7f\x01\x7f\x03\x03\x02\0\x01\x04\x04\x01p\0\x01\x07\x05\x01\x01c\0\x01\x09\x07\x01\0A\0\x0b\x01\0\x0a\x0e\x02\x04\0A\x09\x0b\x07\0 \0\x11\0\0\x0b",
        b"call c 4294967295\n",
        b"end trap 5\n",
    ),
    (
        "the first's start before the second's",
        b"\0asm\x01\0\0\0\x01\x04\x01`\0\0\x02\x0f\x01\x03env\x06memory\x02\0\x01\x03\x02\x01\0\x08\x01\0\x0a\x0b\x01\x09\0A\0A\x016\x02\0\x0b",
        b"\0asm\x01\0\0\0\x01\x08\x02`\0\0`\0\x01\x7f\x02\x0f\x01\x03env\x06memory\x02\0\x01\x03\x03\x02\0\x01\x07\x08\x01\x04seen\0\x01\x08\x01\0\x0a\x1c\x02\x12\0A\0A\0(\x02\0A\x0alA\x02j6\x02\0\x0b\x07\0A\0(\x02\0\x0b",
        b"call seen\n",
        b"result 12\nend done\nheap 0 0c000000000000000000000000000000\n",
    ),
    (
        "a start that is a bound import",
        b"\0asm\x01\0\0\0\x01\x04\x01`\0\0\x02\x0d\x01\x03env\x05begin\0\0\x08\x01\0",
        b"\0asm\x01\0\0\0\x01\x08\x02`\0\0`\0\x01\x7f\x02\x0f\x01\x03env\x06memory\x02\0\x01\x03\x03\x02\0\x01\x07\x10\x02\x05begin\0\0\x04seen\0\x01\x0a\x13\x02\x09\0A\x04A\x056\x02\0\x0b\x07\0A\x04(\x02\0\x0b",
        b"call seen\n",
        b"result 5\nend done\nheap 0 00000000050000000000000000000000\n",
    ),
    (
        "an import of the host under two types",
        b"\0asm\x01\0\0\0\x01\x08\x02`\x01\x7f\0`\0\0\x02\x0b\x01\x03env\x03log\0\0\x03\x02\x01\x01\x07\x07\x01\x03one\0\x01\x0a\x08\x01\x06\0A\x03\x10\0\x0b",
        b"\0asm\x01\0\0\0\x01\x0b\x02`\x02\x7f\x7f\x01\x7f`\0\x01\x7f\x02\x0b\x01\x03env\x03log\0\0\x03\x02\x01\x01\x07\x08\x01\x04both\0\x01\x0a\x0a\x01\x08\0A\x04A\x05\x10\0\x0b",
        b"call one\ncall both\nreply 0\nreply 6\n",
        b"import log 3\nreturned\nimport log 4 5\nresult 6\nend done\n",
    ),
    (
        "a global under the name of a function of the other",
        b"\0asm\x01\0\0\0\x01\x05\x01`\0\x01\x7f\x02\x0a\x01\x03env\x01n\x03\x7f\0\x03\x02\x01\0\x07\x07\x01\x03own\0\0\x0a\x06\x01\x04\0#\0\x0b",
        b"\0asm\x01\0\0\0\x01\x05\x01`\0\x01\x7f\x03\x02\x01\0\x07\x05\x01\x01n\0\0\x0a\x06\x01\x04\0A\x08\x0b",
        b"global n 4\ncall own\ncall n\n",
        b"result 4\nresult 8\nend done\n",
    ),
    (
        "`$trap` is the host's",
        b"\0asm\x01\0\0\0\x01\x08\x02`\x01\x7f\0`\0\0\x02\x0d\x01\x03env\x05$trap\0\0\x03\x02\x01\x01\x07\x08\x01\x04fall\0\x01\x0a\x08\x01\x06\0A\x02\x10\0\x0b",
        b"\0asm\x01\0\0\0\x01\x05\x01`\x01\x7f\0\x03\x02\x01\0\x07\x09\x01\x05$trap\0\0\x0a\x04\x01\x02\0\x0b",
        b"call $trap 1\ncall fall\n",
        b"returned\nend stopped $trap 2\n",
    ),
    (
        "the second's segments after the first's",
        b"\0asm\x01\0\0\0\x01\x05\x01`\0\x01\x7f\x02\x0f\x01\x03env\x06memory\x02\0\x01\x03\x02\x01\0\x07\x08\x01\x04word\0\0\x0a\x09\x01\x07\0A\x08(\x02\0\x0b\x0b\x0a\x01\0A\x08\x0b\x04\x01\x02\x03\x04",
        b"\0asm\x01\0\0\0\x02\x0f\x01\x03env\x06memory\x02\0\x02\x0b\x07\x01\0A\x0a\x0b\x01\x05",
        b"call word\n",
        b"result 67437057\nend done\nheap 0 00000000000000000102050400000000\n",
    ),
    (
        "an import of another module than `env`",
        b"\0asm\x01\0\0\0\x01\x0a\x02`\x01\x7f\x01\x7f`\0\x01\x7f\x02\x0d\x01\x05other\x03inc\0\0\x03\x02\x01\x01\x07\x08\x01\x04call\0\x01\x0a\x08\x01\x06\0A\x01\x10\0\x0b",
        b"\0asm\x01\0\0\0\x01\x06\x01`\x01\x7f\x01\x7f\x03\x02\x01\0\x07\x07\x01\x03inc\0\0\x0a\x09\x01\x07\0 \0A\x01j\x0b",
        b"call call\nreply 9\n",
        b"import $x6f74686572$696e63 1\nresult 9\nend done\n",
    ),
    (
        "globals one after another",
        b"\0asm\x01\0\0\0\x01\x05\x01`\0\x01\x7f\x03\x02\x01\0\x06\x06\x01\x7f\x01A\x05\x0b\x07\x06\x01\x02up\0\0\x0a\x0d\x01\x0b\0#\0A\x01j$\0#\0\x0b",
        b"\0asm\x01\0\0\0\x01\x05\x01`\0\x01\x7f\x02\x0a\x01\x03env\x01k\x03\x7f\0\x03\x02\x01\0\x06\x06\x01\x7f\x01A2\x0b\x07\x08\x01\x04more\0\0\x0a\x0d\x01\x0b\0#\x01#\0j$\x01#\x01\x0b",
        b"global k 3\ncall up\ncall more\ncall up\n",
        b"result 6\nresult 53\nresult 7\nend done\n",
    ),
    (
        "an entry that is a bound import",
        b"\0asm\x01\0\0\0\x01\x0a\x02`\0\x01\x7f`\x01\x7f\x01\x7f\x02\x0b\x01\x03env\x03far\0\0\x03\x02\x01\x01\x04\x04\x01p\0\x01\x07\x06\x01\x02by\0\x01\x09\x07\x01\0A\0\x0b\x01\0\x0a\x09\x01\x07\0 \0\x11\0\0\x0b",
        b"\0asm\x01\0\0\0\x01\x05\x01`\0\x01\x7f\x03\x02\x01\0\x04\x04\x01p\0\x03\x07\x07\x01\x03far\0\0\x09\x07\x01\0A\x02\x0b\x01\0\x0a\x07\x01\x05\0A\xcd\0\x0b",
        b"call by 0\n",
        b"result 77\nend done\n",
    ),
    (
        "a name that is a global's in the other",
        b"\0asm\x01\0\0\0\x01\x05\x01`\0\x01\x7f\x03\x02\x01\0\x07\x05\x01\x01x\0\0\x0a\x06\x01\x04\0A\x01\x0b",
        b"\0asm\x01\0\0\0\x01\x05\x01`\0\x01\x7f\x03\x02\x01\0\x06\x06\x01\x7f\0A\x05\x0b\x07\x09\x02\x01x\x03\0\x01y\0\0\x0a\x06\x01\x04\0#\0\x0b",
        b"call x\ncall y\n",
        b"result 1\nresult 5\nend done\n",
    ),
    (
        "types alike under other numbers",
        b"\0asm\x01\0\0\0\x01\x09\x02`\0\0`\x01\x7f\x01\x7f\x03\x02\x01\x01\x07\x07\x01\x03inc\0\0\x0a\x09\x01\x07\0 \0A\x01j\x0b",
        b"\0asm\x01\0\0\0\x01\x06\x01`\x01\x7f\x01\x7f\x02\x0b\x01\x03env\x03inc\0\0\x03\x02\x01\0\x07\x07\x01\x03two\0\x01\x0a\x0a\x01\x08\0 \0\x10\0\x10\0\x0b",
        b"call two 5\n",
        b"result 7\nend done\n",
    ),
    (
        "segments up to the end",
        b"\0asm\x01\0\0\0\x02\x0f\x01\x03env\x06memory\x02\0\x01\x0b\x0c\x01\0A\xfc\xff\x03\x0b\x04\x01\x02\x03\x04",
        b"\0asm\x01\0\0\0\x01\x0a\x02`\0\x01\x7f`\x01\x7f\x01\x7f\x03\x03\x02\0\x01\x04\x04\x01p\0\x02\x07\x05\x01\x01c\0\x01\x09\x07\x01\0A\x01\x0b\x01\0\x0a\x0e\x02\x04\0A\x09\x0b\x07\0 \0\x11\0\0\x0b",
        b"call c 1\n",
        b"result 9\nend done\nheap 65520 00000000000000000000000001020304\n",
    ),
];

pub(crate) const LINK: &[&str] = &["link", "m", "s"];

/// The module that the two are linked to prints this.
pub(crate) fn prints(
    alloc: Global,
    first: &[u8],
    second: &[u8],
    script: &[u8],
    printed: &[u8],
) -> bool {
    let linked = over(alloc, LINK, &[], first, second);
    linked.status == 0 && over(alloc, RUN_WASM, &[], &linked.written, script).is(0, printed)
}

#[test]
fn pairs_show_what_is_due(rt: HostRuntime) {
    for (number, (_what, first, second, script, printed)) in LINKED.iter().enumerate() {
        holds(
            &rt,
            number,
            prints(rt.alloc(), first, second, script, printed),
        );
    }
}

/// Both modules, and the line that is told of them.
static REFUSED: [End; 19] = [
    // an imported table
    (
        b"\0asm\x01\0\0\0\x02\x0b\x01\x03env\x01t\x01p\0\x01",
        b"\0asm\x01\0\0\0",
        11,
        b"link refused: L1 Profile first 14\n",
    ),
    // an imported mutable global
    (
        b"\0asm\x01\0\0\0",
        b"\0asm\x01\0\0\0\x02\x0a\x01\x03env\x01g\x03\x7f\x01",
        11,
        b"link refused: L1 Profile second 15\n",
    ),
    // an offset that is a global
    (
        b"\0asm\x01\0\0\0\x02\x18\x02\x03env\x01g\x03\x7f\0\x03env\x06memory\x02\0\x01\x0b\x07\x01\0#\0\x0b\x01\x01",
        b"\0asm\x01\0\0\0",
        11,
        b"link refused: L1 Profile first 17\n",
    ),
    // data outside of the memory
    (
        b"\0asm\x01\0\0\0",
        b"\0asm\x01\0\0\0\x02\x0f\x01\x03env\x06memory\x02\0\x01\x0b\x0c\x01\0A\xfd\xff\x03\x0b\x04\x01\x02\x03\x04",
        11,
        b"link refused: L1 Profile second 18\n",
    ),
    // elements outside of the table
    (
        b"\0asm\x01\0\0\0\x01\x04\x01`\0\0\x03\x02\x01\0\x04\x04\x01p\0\x01\x09\x07\x01\0A\x01\x0b\x01\0\x0a\x04\x01\x02\0\x0b",
        b"\0asm\x01\0\0\0",
        11,
        b"link refused: L1 Profile first 18\n",
    ),
    // 4,097 pages
    (
        b"\0asm\x01\0\0\0",
        b"\0asm\x01\0\0\0\x02\x10\x01\x03env\x06memory\x02\0\x81 ",
        11,
        b"link refused: L1 Profile second 19\n",
    ),
    // a memory of its own
    (
        b"\0asm\x01\0\0\0\x05\x03\x01\0\x02",
        b"\0asm\x01\0\0\0",
        11,
        b"link refused: L2 MemoryName first 2\n",
    ),
    // a memory under another name
    (
        b"\0asm\x01\0\0\0",
        b"\0asm\x01\0\0\0\x02\x0d\x01\x03env\x04memo\x02\0\x03",
        11,
        b"link refused: L2 MemoryName second 3\n",
    ),
    // four pages at most, and five at least
    (
        b"\0asm\x01\0\0\0\x02\x10\x01\x03env\x06memory\x02\x01\x01\x04",
        b"\0asm\x01\0\0\0\x02\x0f\x01\x03env\x06memory\x02\0\x05",
        11,
        b"link refused: L3 MemoryLimits first 5\n",
    ),
    // a module with itself
    (
        b"\0asm\x01\0\0\0\x01\x06\x01`\x01\x7f\x01\x7f\x03\x02\x01\0\x07\x07\x01\x03inc\0\0\x0a\x09\x01\x07\0 \0A\x01j\x0b",
        b"\0asm\x01\0\0\0\x01\x06\x01`\x01\x7f\x01\x7f\x03\x02\x01\0\x07\x07\x01\x03inc\0\0\x0a\x09\x01\x07\0 \0A\x01j\x0b",
        11,
        b"link refused: L4 ExportTaken second 0\n",
    ),
    // another result than the function's
    (
        b"\0asm\x01\0\0\0\x01\x06\x01`\x01\x7f\x01\x7f\x03\x02\x01\0\x07\x07\x01\x03inc\0\0\x0a\x09\x01\x07\0 \0A\x01j\x0b",
        b"\0asm\x01\0\0\0\x01\x05\x01`\x01\x7f\0\x02\x0b\x01\x03env\x03inc\0\0",
        11,
        b"link refused: L5 OtherType second 0\n",
    ),
    // the same the other way round
    (
        b"\0asm\x01\0\0\0\x01\x05\x01`\x01\x7f\0\x02\x0b\x01\x03env\x03inc\0\0",
        b"\0asm\x01\0\0\0\x01\x06\x01`\x01\x7f\x01\x7f\x03\x02\x01\0\x07\x07\x01\x03inc\0\0\x0a\x09\x01\x07\0 \0A\x01j\x0b",
        11,
        b"link refused: L5 OtherType first 0\n",
    ),
    // two imports of each other
    (
        b"\0asm\x01\0\0\0\x01\x04\x01`\0\0\x02\x09\x01\x03env\x01b\0\0\x07\x05\x01\x01a\0\0",
        b"\0asm\x01\0\0\0\x01\x04\x01`\0\0\x02\x09\x01\x03env\x01a\0\0\x07\x05\x01\x01b\0\0",
        11,
        b"link refused: L6 Cycle first 0\n",
    ),
    // a ring, and an import that leads into it
    (
        b"\0asm\x01\0\0\0\x01\x04\x01`\0\0\x02\x11\x02\x03env\x01b\0\0\x03env\x01b\0\0\x07\x05\x01\x01a\0\x01",
        b"\0asm\x01\0\0\0\x01\x04\x01`\0\0\x02\x09\x01\x03env\x01a\0\0\x07\x05\x01\x01b\0\0",
        11,
        b"link refused: L6 Cycle first 1\n",
    ),
    // the profile before names
    (
        b"\0asm\x01\0\0\0\x02\x10\x01\x03env\x06memory\x02\0\x81 ",
        b"\0asm\x01\0\0\0\x05\x03\x01\0\x02",
        11,
        b"link refused: L1 Profile first 19\n",
    ),
    // a memory of another module
    (
        b"\0asm\x01\0\0\0",
        b"\0asm\x01\0\0\0\x02\x11\x01\x05other\x06memory\x02\0\x03",
        11,
        b"link refused: L2 MemoryName second 3\n",
    ),
    // the least taken export's place
    (
        b"\0asm\x01\0\0\0\x01\x04\x01`\0\0\x03\x02\x01\0\x07\x09\x02\x01p\0\0\x01q\0\0\x0a\x04\x01\x02\0\x0b",
        b"\0asm\x01\0\0\0\x01\x04\x01`\0\0\x03\x02\x01\0\x06\x06\x01\x7f\0A\0\x0b\x07\x11\x04\x01a\x03\0\x01b\0\0\x01q\0\0\x01p\0\0\x0a\x04\x01\x02\0\x0b",
        11,
        b"link refused: L4 ExportTaken second 2\n",
    ),
    // another type, by the number among all imports
    (
        b"\0asm\x01\0\0\0\x01\x04\x01`\0\0\x02\x12\x02\x03env\x01g\x03\x7f\0\x03env\x01h\0\0",
        b"\0asm\x01\0\0\0\x01\x05\x01`\0\x01\x7f\x03\x02\x01\0\x07\x05\x01\x01h\0\0\x0a\x06\x01\x04\0A\0\x0b",
        11,
        b"link refused: L5 OtherType first 1\n",
    ),
    // names before types
    (
        b"\0asm\x01\0\0\0\x01\x04\x01`\0\0\x02\x09\x01\x03env\x01h\0\0\x03\x02\x01\0\x07\x05\x01\x01k\0\x01\x0a\x04\x01\x02\0\x0b",
        b"\0asm\x01\0\0\0\x01\x08\x02`\0\x01\x7f`\0\0\x03\x03\x02\0\x01\x07\x09\x02\x01h\0\0\x01k\0\x01\x0a\x09\x02\x04\0A\0\x0b\x02\0\x0b",
        11,
        b"link refused: L4 ExportTaken second 1\n",
    ),
];

#[test]
fn pairs_are_refused(rt: HostRuntime) {
    all_end(&rt, rt.alloc(), LINK, &REFUSED);
}
