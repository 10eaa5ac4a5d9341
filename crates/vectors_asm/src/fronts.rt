//! Modules and texts that are cut short, by the whole program.
use crate::modules::{ADDING, LOADING, TABLE};
use crate::program::{CHECK_ASM, CHECK_WASM, End, Told, all_end, over};
use crate::rows::holds;
use crate::texts::{SUM, USUAL};
use std::alloc::Global;
use std::process::Abort;

/// A module; the lengths at which its front is a module too, and the line that counts what is in it; and the lengths at which its
/// functions have no bodies yet.
struct Cut {
    module: &'static [u8],
    whole: &'static [(usize, &'static [u8])],
    bodiless: &'static [usize],
}

const NOTHING: &[u8] = b"wasm functions 0 imports 0 exports 0\n";

const ONE_FUNCTION: &[u8] = b"wasm functions 1 imports 0 exports 1\n";

static CUTS: [Cut; 3] = [
    // After the header, the types and the code; and after the functions and the exports.
    Cut {
        module: ADDING,
        whole: &[(8, NOTHING), (17, NOTHING), (39, ONE_FUNCTION)],
        bodiless: &[21, 28],
    },
    // After the header, the types, the code and the data; and after the functions, the memory and the exports.
    Cut {
        module: LOADING,
        whole: &[
            (8, NOTHING),
            (16, NOTHING),
            (43, ONE_FUNCTION),
            (56, ONE_FUNCTION),
        ],
        bodiless: &[20, 25, 32],
    },
    // After the header, the types and the code; and after the functions, the table, the exports and the elements.
    Cut {
        module: TABLE,
        whole: &[
            (8, NOTHING),
            (20, NOTHING),
            (80, b"wasm functions 3 imports 0 exports 1\n"),
        ],
        bodiless: &[26, 32, 39, 54],
    },
];

/// The line that counts what is in a front of this length, where it is a module.
fn counted(cut: &Cut, length: usize) -> Option<&'static [u8]> {
    for (whole, line) in cut.whole {
        if *whole == length {
            return Some(*line);
        }
    }
    None
}

/// The module is refused for this, at this place.
fn is_refused_at(alloc: Global, told: &Told, why: &str, place: usize) -> bool {
    match format!(in alloc; "wasm refused: {why} at {place}\n") {
        Ok(line) => told.is(3, line.as_bytes()),
        Err(_) => false,
    }
}

/// `check-wasm` tells this of the first bytes of the module, so many.
fn is_told(alloc: Global, cut: &Cut, told: &Told, length: usize) -> bool {
    match counted(cut, length) {
        Some(line) => told.is(0, line),
        None => {
            let is_bodiless = cut.bodiless.contains(&length);
            let why = if is_bodiless {
                "B9 Counts"
            } else {
                "B3 Truncated"
            };
            is_refused_at(alloc, told, why, length)
        }
    }
}

fn fronts_of_a_module(rt: &impl Abort, alloc: Global, cut: &Cut) {
    for length in 0..cut.module.len() {
        let told = over(alloc, CHECK_WASM, &[], &cut.module[..length], b"");
        holds(rt, length, is_told(alloc, cut, &told, length));
    }
    let told = over(alloc, CHECK_WASM, &[], cut.module, b"");
    let length = cut.module.len();
    holds(rt, length, is_told(alloc, cut, &told, length));
}

#[test]
fn fronts_of_modules(rt: HostRuntime) {
    for cut in CUTS.iter() {
        fronts_of_a_module(&rt, rt.alloc(), cut);
    }
}

/// The line of `check-asm` on the first bytes of `SUM`, where it is known: a keyword or a quote that is cut is refused at its place.
fn line_of_front(n: usize) -> Option<&'static [u8]> {
    match n {
        0..=7 => Some(b"asm.js refused: A5 Grammar at 0\n"),
        14..=21 => Some(b"asm.js refused: A2 BadToken at 13\n"),
        74 => Some(b"asm.js refused: A5 Grammar at 74\n"),
        _ => None,
    }
}

/// `check-asm` refuses the first bytes of `SUM`, by this line where one is known.
fn is_refused(told: &Told, line: Option<&[u8]>) -> bool {
    match line {
        Some(line) => told.is(2, line),
        None => told.status == 2,
    }
}

#[test]
fn fronts_of_a_sum(rt: HostRuntime) {
    for n in 0..SUM.len() {
        let told = over(rt.alloc(), CHECK_ASM, &[], &SUM[..n], b"");
        holds(&rt, n, is_refused(&told, line_of_front(n)));
    }
}

#[test]
fn fronts_of_a_usual_text(rt: HostRuntime) {
    for n in 0..USUAL.len() {
        let told = over(rt.alloc(), CHECK_ASM, &[], &USUAL[..n], b"");
        holds(&rt, n, told.status == 2);
    }
}

/// Whole texts.
static WHOLE_TEXTS: [End; 2] = [
    (
        SUM,
        b"",
        0,
        b"asm.js functions 1 tables 0 exports 1 foreign 0\n",
    ),
    (
        USUAL,
        b"",
        0,
        b"asm.js functions 2 tables 0 exports 2 foreign 1\n",
    ),
];

#[test]
fn whole_texts(rt: HostRuntime) {
    all_end(&rt, rt.alloc(), CHECK_ASM, &WHOLE_TEXTS);
}
