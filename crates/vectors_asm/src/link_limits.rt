//! Pairs of modules with as much of a kind as can be linked, and one more; and a chain of imports; by the whole program.
use crate::links::{LINK, prints};
use crate::pieces::{Part, joined};
use crate::program::{Told, over};
use crate::rows::holds;
use std::alloc::{AllocError, Global};

/// What a pair has, the parts of both modules, and the line that refuses them, where they aren't linked.
type Edge = (
    &'static str,
    &'static [Part],
    &'static [Part],
    Option<&'static [u8]>,
);

static EDGES: [Edge; 15] = [
    (
        "types",
        &[(b"\0asm\x01\0\0\0\x01\x9au\x88'", b"`\0\0", 5_000)],
        &[(b"\0asm\x01\0\0\0\x01\x9au\x88'", b"`\0\0", 5_000)],
        None,
    ),
    (
        "types, one more",
        &[(b"\0asm\x01\0\0\0\x01\x9au\x88'", b"`\0\0", 5_000)],
        &[(b"\0asm\x01\0\0\0\x01\x9du\x89'", b"`\0\0", 5_001)],
        Some(b"link refused: L7 Limit first 10001\n"),
    ),
    (
        "functions",
        &[
            (
                b"\0asm\x01\0\0\0\x01\x04\x01`\0\0\x03\xc3\xb8\x02\xc0\xb8\x02",
                b"\0",
                40_000,
            ),
            (b"\x0a\xc3\xa9\x07\xc0\xb8\x02", b"\x02\0\x0b", 40_000),
        ],
        &[
            (
                b"\0asm\x01\0\0\0\x01\x04\x01`\0\0\x03\xc2\xb8\x02\xbf\xb8\x02",
                b"\0",
                39_999,
            ),
            (b"\x0a\xc0\xa9\x07\xbf\xb8\x02", b"\x02\0\x0b", 39_999),
        ],
        None,
    ),
    (
        "functions, one more",
        &[
            (
                b"\0asm\x01\0\0\0\x01\x04\x01`\0\0\x03\xc3\xb8\x02\xc0\xb8\x02",
                b"\0",
                40_000,
            ),
            (b"\x0a\xc3\xa9\x07\xc0\xb8\x02", b"\x02\0\x0b", 40_000),
        ],
        &[
            (
                b"\0asm\x01\0\0\0\x01\x04\x01`\0\0\x03\xc3\xb8\x02\xc0\xb8\x02",
                b"\0",
                40_000,
            ),
            (b"\x0a\xc3\xa9\x07\xc0\xb8\x02", b"\x02\0\x0b", 40_000),
        ],
        Some(b"link refused: L7 Limit first 80001\n"),
    ),
    (
        "globals",
        &[(
            b"\0asm\x01\0\0\0\x06\xf3\xc8!\xb0\xdb\x06",
            b"\x7f\0A\0\x0b",
            110_000,
        )],
        &[(
            b"\0asm\x01\0\0\0\x06\xf3\xc8!\xb0\xdb\x06",
            b"\x7f\0A\0\x0b",
            110_000,
        )],
        None,
    ),
    (
        "globals, one more",
        &[(
            b"\0asm\x01\0\0\0\x06\xf8\xc8!\xb1\xdb\x06",
            b"\x7f\0A\0\x0b",
            110_001,
        )],
        &[(
            b"\0asm\x01\0\0\0\x06\xf3\xc8!\xb0\xdb\x06",
            b"\x7f\0A\0\x0b",
            110_000,
        )],
        Some(b"link refused: L7 Limit first 220001\n"),
    ),
    (
        "entries of tables",
        &[(b"\0asm\x01\0\0\0\x04\x06\x01p\0\x80\x80 ", b"", 0)],
        &[(b"\0asm\x01\0\0\0\x04\x06\x01p\0\x80\x80 ", b"", 0)],
        None,
    ),
    (
        "entries of tables, one more",
        &[(b"\0asm\x01\0\0\0\x04\x06\x01p\0\x81\x80 ", b"", 0)],
        &[(b"\0asm\x01\0\0\0\x04\x06\x01p\0\x80\x80 ", b"", 0)],
        Some(b"link refused: L7 Limit first 1048577\n"),
    ),
    (
        "60,000 locals of a function, and one",
        &[(
            b"\0asm\x01\0\0\0\x01\x04\x01`\0\0\x03\x02\x01\0\x04\x04\x01p\0\x01\x0a\x08\x01\x06\x01\xe0\xd4\x03\x7f\x0b",
            b"",
            0,
        )],
        &[(
            b"\0asm\x01\0\0\0\x01\x04\x01`\0\0\x03\x02\x01\0\x04\x04\x01p\0\x01\x0a\x06\x01\x04\x01\x01\x7f\x0b",
            b"",
            0,
        )],
        None,
    ),
    (
        "59,999 of each, with a call by a table entry",
        &[(
            b"\0asm\x01\0\0\0\x01\x04\x01`\0\0\x03\x02\x01\0\x04\x04\x01p\0\x01\x0a\x0d\x01\x0b\x01\xdf\xd4\x03\x7fA\0\x11\0\0\x0b",
            b"",
            0,
        )],
        &[(
            b"\0asm\x01\0\0\0\x01\x04\x01`\0\0\x03\x02\x01\0\x04\x04\x01p\0\x01\x0a\x0d\x01\x0b\x01\xdf\xd4\x03\x7fA\0\x11\0\0\x0b",
            b"",
            0,
        )],
        None,
    ),
    (
        "60,000 with such a call, and one",
        &[(
            b"\0asm\x01\0\0\0\x01\x04\x01`\0\0\x03\x02\x01\0\x04\x04\x01p\0\x01\x0a\x0d\x01\x0b\x01\xe0\xd4\x03\x7fA\0\x11\0\0\x0b",
            b"",
            0,
        )],
        &[(
            b"\0asm\x01\0\0\0\x01\x04\x01`\0\0\x03\x02\x01\0\x04\x04\x01p\0\x01\x0a\x0b\x01\x09\x01\x01\x7fA\0\x11\0\0\x0b",
            b"",
            0,
        )],
        Some(b"link refused: L7 Limit first 0\n"),
    ),
    (
        "one, and 60,000",
        &[(
            b"\0asm\x01\0\0\0\x01\x04\x01`\0\0\x03\x02\x01\0\x04\x04\x01p\0\x01\x0a\x0b\x01\x09\x01\x01\x7fA\0\x11\0\0\x0b",
            b"",
            0,
        )],
        &[(
            b"\0asm\x01\0\0\0\x01\x04\x01`\0\0\x03\x02\x01\0\x04\x04\x01p\0\x01\x0a\x0d\x01\x0b\x01\xe0\xd4\x03\x7fA\0\x11\0\0\x0b",
            b"",
            0,
        )],
        Some(b"link refused: L7 Limit second 0\n"),
    ),
    (
        "60,000 of each",
        &[(
            b"\0asm\x01\0\0\0\x01\x04\x01`\0\0\x03\x02\x01\0\x04\x04\x01p\0\x01\x0a\x0d\x01\x0b\x01\xe0\xd4\x03\x7fA\0\x11\0\0\x0b",
            b"",
            0,
        )],
        &[(
            b"\0asm\x01\0\0\0\x01\x04\x01`\0\0\x03\x02\x01\0\x04\x04\x01p\0\x01\x0a\x0d\x01\x0b\x01\xe0\xd4\x03\x7fA\0\x11\0\0\x0b",
            b"",
            0,
        )],
        Some(b"link refused: L7 Limit first 0\n"),
    ),
    (
        "4,096 pages of each",
        &[(
            b"\0asm\x01\0\0\0\x02\x10\x01\x03env\x06memory\x02\0\x80 ",
            b"",
            0,
        )],
        &[(
            b"\0asm\x01\0\0\0\x02\x10\x01\x03env\x06memory\x02\0\x80 ",
            b"",
            0,
        )],
        None,
    ),
    (
        "a page and four, of four at most",
        &[(
            b"\0asm\x01\0\0\0\x02\x10\x01\x03env\x06memory\x02\x01\x01\x04",
            b"",
            0,
        )],
        &[(
            b"\0asm\x01\0\0\0\x02\x10\x01\x03env\x06memory\x02\x01\x04\x04",
            b"",
            0,
        )],
        None,
    ),
];

fn is_due(told: &Told, line: Option<&[u8]>) -> bool {
    match line {
        Some(line) => told.is(11, line),
        None => told.status == 0,
    }
}

fn is_edge(alloc: Global, first: &[Part], second: &[Part], line: Option<&[u8]>) -> bool {
    let Ok(first) = joined(alloc, first) else {
        return false;
    };
    match joined(alloc, second) {
        Ok(second) => is_due(&over(alloc, LINK, &[], &first, &second), line),
        Err(_) => false,
    }
}

#[test]
fn limits_at_their_edges(rt: HostRuntime) {
    for (number, (_what, first, second, line)) in EDGES.iter().enumerate() {
        holds(&rt, number, is_edge(rt.alloc(), first, second, *line));
    }
}

/// A name of four letters, for the digits of a number below 10,000.
fn push_name(out: &mut Vec<u8>, number: u16) -> Result<(), AllocError> {
    out.push(4)?;
    for digits in [number / 1_000, number / 100, number / 10, number] {
        out.push(b'a' + (digits % 10) as u8)?;
    }
    Ok(())
}

/// Imports of 300 functions of `env`, by every second number behind this one.
fn push_imports(out: &mut Vec<u8>, begin: u8) -> Result<(), AllocError> {
    for k in 0..300u16 {
        out.extend_from_slice(b"\x03env")?;
        push_name(out, begin as u16 + 2 * k + 1)?;
        out.extend_from_slice(b"\0\0")?;
    }
    Ok(())
}

/// Exports of these imports, by every second number from this one on.
fn push_exports(out: &mut Vec<u8>, begin: u8) -> Result<(), AllocError> {
    for k in 0..300u16 {
        push_name(out, begin as u16 + 2 * k)?;
        out.push(0)?;
        if k < 128 {
            out.push(k as u8)?;
        } else {
            out.extend_from_slice(&[(k % 128 + 128) as u8, (k / 128) as u8])?;
        }
    }
    Ok(())
}

/// A module that imports each of 300 names by the number after its own, and exports it by its own; its own function, which gives
/// 7, has the name of the last number.
fn link_of_chain(alloc: Global, begin: u8, last: u16) -> Result<Vec<u8>, AllocError> {
    let mut out = Vec::from_slice(
        alloc,
        b"\0asm\x01\0\0\0\x01\x05\x01`\0\x01\x7f\x02\xe6\x19\xac\x02".as_slice(),
    )?;
    push_imports(&mut out, begin)?;
    out.extend_from_slice(b"\x03\x02\x01\0\x07\xea\x11\xad\x02")?;
    push_exports(&mut out, begin)?;
    push_name(&mut out, last)?;
    out.extend_from_slice(b"\0\xac\x02\x0a\x06\x01\x04\0A\x07\x0b")?;
    Ok(out)
}

#[test]
fn a_chain_of_imports(rt: HostRuntime) {
    // the names 0, 2, .. lead on to 1, 3, .., and those to the next of the former; the last, 600, is a function
    let Ok(first) = link_of_chain(rt.alloc(), 0, 600) else {
        return holds(&rt, 1, false);
    };
    let Ok(second) = link_of_chain(rt.alloc(), 1, 9_999) else {
        return holds(&rt, 2, false);
    };
    let script = b"call aaaa\ncall aaab\n";
    let printed = b"result 7\nresult 7\nend done\n";
    holds(&rt, 0, prints(rt.alloc(), &first, &second, script, printed));
}
