//! Words, and what they ask for.

use crate::rows::holds;
use bridge_args::read_words;
use std::alloc::Global;
use std::process::Abort;

/// What `read_words` says of the words, in `Debug`'s form.
fn shows(alloc: Global, words: &[&str], expected: &str) -> bool {
    let mut owned = Vec::new(alloc);
    for word in words {
        let Ok(word) = String::from_str(alloc, *word) else {
            return false;
        };
        if owned.push(word).is_err() {
            return false;
        }
    }
    match format!(in alloc; "{:?}", read_words(alloc, owned.as_slice())) {
        Ok(text) => text.as_str() == expected,
        Err(_) => false,
    }
}

/// Words of a command line, and what is said of them.
type Row = (&'static [&'static str], &'static str);

fn all_show(rt: &impl Abort, alloc: Global, rows: &[Row]) {
    for (number, (words, expected)) in rows.iter().enumerate() {
        holds(rt, number, shows(alloc, words, expected));
    }
}

static ANYWHERE: [Row; 4] = [
    (
        &["bridge", "run-wasm", "a", "b", "--steps", "5"],
        "Ok(OnFile { action: Run { running: Binary, script: \"b\", steps: 5 }, file: \"a\" })",
    ),
    (
        &["bridge", "run-wasm", "a", "b", "--steps=5"],
        "Ok(OnFile { action: Run { running: Binary, script: \"b\", steps: 5 }, file: \"a\" })",
    ),
    (
        &["bridge", "--steps", "5", "run-wasm", "a", "b"],
        "Ok(OnFile { action: Run { running: Binary, script: \"b\", steps: 5 }, file: \"a\" })",
    ),
    (
        &["bridge", "run-wasm", "a", "--steps=5", "b"],
        "Ok(OnFile { action: Run { running: Binary, script: \"b\", steps: 5 }, file: \"a\" })",
    ),
];

#[test]
fn options_stand_anywhere(rt: HostRuntime) {
    all_show(&rt, rt.alloc(), &ANYWHERE);
}

static DEFAULTS: [Row; 3] = [
    (
        &["bridge", "run-asm", "a", "b"],
        "Ok(OnFile { action: Run { running: Text(HeapLength { bytes: 65536 }), script: \"b\", steps: 1000000 }, file: \"a\" })",
    ),
    (
        &["bridge", "show", "--", "--steps"],
        "Ok(OnFile { action: Make(Show), file: \"--steps\" })",
    ),
    (
        &["bridge", "asm2wasm", "a", "--heap", "33554432"],
        "Ok(OnFile { action: Translate(HeapLength { bytes: 33554432 }), file: \"a\" })",
    ),
];

#[test]
fn defaults_and_dashes(rt: HostRuntime) {
    all_show(&rt, rt.alloc(), &DEFAULTS);
}

static OTHERS: [Row; 10] = [
    (&[], "Err(Usage)"),
    (
        &["bridge", "run-wasm", "a", "b", "--steps=5", "--steps=5"],
        "Err(Usage)",
    ),
    (&["bridge", "show", "a", "b"], "Err(Usage)"),
    (&["bridge", "show", "a", "--fast"], "Err(Usage)"),
    (&["bridge", "--help"], "Err(Usage)"),
    (
        &["bridge", "run-wasm", "a", "b", "--steps=010"],
        "Err(Usage)",
    ),
    (
        &["bridge", "run-wasm", "a", "b", "--steps=+1"],
        "Err(Usage)",
    ),
    (&["bridge", "asm2wasm", "a", "--heap=2048"], "Err(Usage)"),
    (&["bridge", "show", "a", "--heap=65536"], "Err(Usage)"),
    (&["bridge", "run-wasm", "a", "b", "--steps"], "Err(Usage)"),
];

#[test]
fn other_words_are_refused(rt: HostRuntime) {
    all_show(&rt, rt.alloc(), &OTHERS);
}
