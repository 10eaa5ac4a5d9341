//! Worked rows: names, the split of a script, and what is below what.
use crate::rows::holds;
use script_read::read_script;
use sem_words::{List, Text};
use session_lang::{
    CallLine, CallShape, End, Event, Observation, Script, below, export_name, import_name, lesser,
    split_script,
};
use std::alloc::{AllocError, Global};

/// A module, a field, and the name that their import has.
static IMPORTS: [(&[u8], &[u8], &[u8]); 3] = [
    (b"env", b"f", b"f"),
    (b"a", b"b", b"$x61$62"),
    (b"env", b"$trap", b"$trap"),
];

/// An export, and its name.
static EXPORTS: [(&[u8], &[u8]); 2] = [(b"", b"$x"), (b"$hi", b"$x246869")];

fn is_name(name: Result<Text, AllocError>, wanted: &[u8]) -> bool {
    match name {
        Ok(name) => name.as_bytes() == wanted,
        Err(_) => false,
    }
}

#[test]
fn names_of_imports(rt: HostRuntime) {
    for (number, (module, field, wanted)) in IMPORTS.iter().enumerate() {
        holds(
            &rt,
            number,
            is_name(import_name(rt.alloc(), module, field), wanted),
        );
    }
}

#[test]
fn names_of_exports(rt: HostRuntime) {
    for (number, (export, wanted)) in EXPORTS.iter().enumerate() {
        holds(
            &rt,
            number,
            is_name(export_name(rt.alloc(), export), wanted),
        );
    }
}

/// A sum of two numbers of 64 bits, with a wide result.
fn wide_sum(alloc: Global) -> Result<CallShape, AllocError> {
    Ok(CallShape {
        key: Text::from_bytes(alloc, b"m")?,
        wide: List::from_vec(Vec::from_slice(alloc, &[true, true])?),
        wide_result: true,
    })
}

/// The name, the arguments and the line of each call.
static CALLS: [(&[u8], &[i128], u64); 3] = [
    (b"$init", &[], 0),
    (b"m", &[4294967295, 0, 4294967295, 0], 3),
    (b"$hi", &[], 3),
];

fn is_call(call: &CallLine, name: &[u8], args: &[i128], line: u64) -> bool {
    call.name.as_bytes() == name && call.args.as_slice() == args && call.line == line
}

fn are_calls(calls: &[CallLine]) -> bool {
    let mut are = calls.len() == CALLS.len();
    for (call, (name, args, line)) in calls.iter().zip(CALLS.iter()) {
        are &= is_call(call, name, args, *line);
    }
    are
}

/// The script, in the calling form of asm.js for a module with this sum, has these calls and one reply.
fn is_split(alloc: Global, script: &Script) -> bool {
    let Ok(shape) = wide_sum(alloc) else {
        return false;
    };
    match split_script(alloc, script, &[shape]) {
        Ok(split) => are_calls(split.calls.as_slice()) && split.replies.len() == 1,
        Err(_) => false,
    }
}

#[test]
fn wide_sum_is_split(rt: HostRuntime) {
    // a line of each kind
    let text = b"global g -1\nheap 4 7879\ncall m 4294967295 4294967295\nreply 7";
    match read_script(rt.alloc(), text) {
        Ok(script) => holds(&rt, 0, is_split(rt.alloc(), &script)),
        Err(_) => holds(&rt, 1, false),
    }
}

/// A line, perhaps another one, and the lesser of them.
static LINES: [(u64, Option<u64>, u64); 3] = [(7, None, 7), (7, Some(3), 3), (3, Some(7), 3)];

#[test]
fn the_lesser_line_is_told(rt: HostRuntime) {
    for (number, (line, other, wanted)) in LINES.iter().enumerate() {
        holds(
            &rt,
            number,
            matches!(lesser(*line, *other), Some(found) if found == *wanted),
        );
    }
}

/// How many calls of a session have returned, and whether it has ended.
type Returned = (u32, bool);

/// Two sessions, and whether the first is below the second.
static BELOW: [(Returned, Returned, bool); 7] = [
    ((2, false), (2, false), true),
    ((2, false), (3, false), true),
    ((3, false), (2, false), false),
    ((2, false), (2, true), true),
    ((2, true), (2, true), true),
    ((2, true), (2, false), false),
    ((2, true), (3, true), false),
];

fn observed(alloc: Global, returned: Returned) -> Result<Observation, AllocError> {
    let (count, has_ended) = returned;
    let mut events = Vec::new(alloc);
    for _ in 0..count {
        events.push(Event::Returned)?;
    }
    Ok(Observation {
        events: List::from_vec(events),
        end: if has_ended { Some(End::Done) } else { None },
        heap: Text::from_bytes(alloc, b"")?,
    })
}

fn is_below(alloc: Global, first: Returned, second: Returned, wanted: bool) -> bool {
    let Ok(first) = observed(alloc, first) else {
        return false;
    };
    match observed(alloc, second) {
        Ok(second) => below(&first, &second) == wanted,
        Err(_) => false,
    }
}

#[test]
fn what_is_seen_earlier_is_below(rt: HostRuntime) {
    for (number, (first, second, wanted)) in BELOW.iter().enumerate() {
        holds(&rt, number, is_below(rt.alloc(), *first, *second, *wanted));
    }
}
