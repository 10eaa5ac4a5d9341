//! Each limit is met by its own number, and refused at one more.
use super::{FRONT, is_told};
use crate::pieces::Part;
use crate::rows::holds;
use asm_lang_valid::Rule;
use cmd_check_asm::AsmRow;
use std::alloc::Global;
use std::process::Abort;

/// What a text has so many of, its parts, and which rule refuses it and where: at the node that passes the limit, where the items begin
/// or at the last of them.
type Row = (&'static str, &'static [Part<'static>], Option<(Rule, u64)>);

fn are_told(rt: &impl Abort, alloc: Global, rows: &[Row]) {
    for (number, (_name, parts, refusal)) in rows.iter().enumerate() {
        let refusal = match *refusal {
            Some((rule, at)) => Some((AsmRow::Rule(rule), at)),
            None => None,
        };
        holds(rt, number, is_told(alloc, parts, refusal));
    }
}

/// Limits that texts of 100 kB meet.
static SMALL: [Row; 8] = [
    (
        "parameters, the first one apart",
        &[
            (FRONT, b"", 0),
            (b"function f(z", b",p#", 1999),
            (b"){z=z|0;", b"p#=p#|0;", 1999),
            (b"}return f}", b"", 0),
        ],
        None,
    ),
    (
        "one more",
        &[
            (FRONT, b"", 0),
            (b"function f(z", b",p#", 2000),
            (b"){z=z|0;", b"p#=p#|0;", 2000),
            (b"}return f}", b"", 0),
        ],
        Some((Rule::PastLimit, 10985)),
    ),
    (
        "arguments of a call of a foreign function",
        &[
            (FRONT, b"", 0),
            (b"function f(){u(", b"0,", 1999),
            (b"0);}return f}", b"", 0),
        ],
        None,
    ),
    (
        "one more",
        &[
            (FRONT, b"", 0),
            (b"function f(){u(", b"0,", 2000),
            (b"0);}return f}", b"", 0),
        ],
        Some((Rule::PastLimit, 101)),
    ),
    (
        "cases",
        &[
            (FRONT, b"", 0),
            (b"function f(i){i=i|0;switch(i|0){", b"case #:;", 1000),
            (b"}}return f}", b"", 0),
        ],
        None,
    ),
    (
        "one more",
        &[
            (FRONT, b"", 0),
            (b"function f(i){i=i|0;switch(i|0){", b"case #:;", 1001),
            (b"}}return f}", b"", 0),
        ],
        Some((Rule::PastLimit, 108)),
    ),
    (
        "bytes of the name of a foreign member",
        &[
            (
                b"function m(stdlib,foreign){'use asm';var g=foreign.",
                b"x",
                100_000,
            ),
            (b";function f(){}return f}", b"", 0),
        ],
        None,
    ),
    (
        "one more",
        &[
            (
                b"function m(stdlib,foreign){'use asm';var g=foreign.",
                b"x",
                100_001,
            ),
            (b";function f(){}return f}", b"", 0),
        ],
        Some((Rule::PastLimit, 41)),
    ),
];

// Limits that take texts of up to 2 MB have a test each, so that none takes long.

static FUNCTIONS: [Row; 2] = [
    (
        "functions",
        &[
            (FRONT, b"", 0),
            (b"", b"function f#(){}", 50_000),
            (b"return f0}", b"", 0),
        ],
        None,
    ),
    (
        "one more",
        &[
            (FRONT, b"", 0),
            (b"", b"function f#(){}", 50_001),
            (b"return f0}", b"", 0),
        ],
        Some((Rule::PastLimit, 938987)),
    ),
];

static LOCALS: [Row; 2] = [
    (
        "locals, with one parameter",
        &[
            (FRONT, b"", 0),
            (b"function f(z){z=z|0;", b"var l#=0;", 49_999),
            (b"}return f}", b"", 0),
        ],
        None,
    ),
    (
        "one more",
        &[
            (FRONT, b"", 0),
            (b"function f(z){z=z|0;", b"var l#=0;", 50_000),
            (b"}return f}", b"", 0),
        ],
        Some((Rule::PastLimit, 638989)),
    ),
];

static GLOBALS: [Row; 2] = [
    (
        "globals, of which two stand in front",
        &[
            (FRONT, b"", 0),
            (b"", b"var g#=0;", 99_998),
            (b"function f(){}return f}", b"", 0),
        ],
        None,
    ),
    (
        "one more",
        &[
            (FRONT, b"", 0),
            (b"", b"var g#=0;", 99_999),
            (b"function f(){}return f}", b"", 0),
        ],
        Some((Rule::PastLimit, 1288956)),
    ),
];

static FOREIGN_CALLS: [Row; 2] = [
    (
        "distinct calls of foreign functions",
        &[
            (
                b"function m(stdlib,foreign){'use asm';",
                b"var u#=foreign.u#;",
                25_000,
            ),
            (b"function f(){", b"u#();", 25_000),
            (b"}return f}", b"", 0),
        ],
        None,
    ),
    (
        "one more",
        &[
            (
                b"function m(stdlib,foreign){'use asm';",
                b"var u#=foreign.u#;",
                25_001,
            ),
            (b"function f(){", b"u#();", 25_001),
            (b"}return f}", b"", 0),
        ],
        Some((Rule::PastLimit, 841746)),
    ),
];

static MEMBERS: [Row; 2] = [
    (
        "members of a table, whose number has to be a power of two",
        &[
            (FRONT, b"", 0),
            (b"function f(){}var t=[", b"f,", 65_535),
            (b"f];return f}", b"", 0),
        ],
        None,
    ),
    (
        "one more",
        &[
            (FRONT, b"", 0),
            (b"function f(){}var t=[", b"f,", 131_071),
            (b"f];return f}", b"", 0),
        ],
        Some((Rule::PastLimit, 106)),
    ),
];

// The longest text has a test for each answer.

static LONGEST_CHAIN: [Row; 1] = [(
    "operators of a chain",
    &[
        (FRONT, b"", 0),
        (b"function f(){return (0", b"+0", 1_048_576),
        (b")|0;}return f}", b"", 0),
    ],
    None,
)];

static LONGER_CHAIN: [Row; 1] = [(
    "one more",
    &[
        (FRONT, b"", 0),
        (b"function f(){return (0", b"+0", 1_048_577),
        (b")|0;}return f}", b"", 0),
    ],
    Some((Rule::ChainLong, 110)),
)];

static ALL_TABLES: [Row; 1] = [(
    "tables of the greatest size, as many as there may be",
    &[
        (FRONT, b"", 0),
        (b"function f(){}var t0=[", b"f,", 65_535),
        (b"f];var t1=[", b"f,", 65_535),
        (b"f];var t2=[", b"f,", 65_535),
        (b"f];var t3=[", b"f,", 65_535),
        (b"f];var t4=[", b"f,", 65_535),
        (b"f];var t5=[", b"f,", 65_535),
        (b"f];var t6=[", b"f,", 65_535),
        (b"f];var t7=[", b"f,", 65_535),
        (b"f];var t8=[", b"f,", 65_535),
        (b"f];var t9=[", b"f,", 65_535),
        (b"f];var t10=[", b"f,", 65_535),
        (b"f];var t11=[", b"f,", 65_535),
        (b"f];var t12=[", b"f,", 65_535),
        (b"f];var t13=[", b"f,", 65_535),
        (b"f];var t14=[", b"f,", 65_535),
        (b"f];var t15=[", b"f,", 65_535),
        (b"f];return f}", b"", 0),
    ],
    None,
)];

static MORE_THAN_ALL_TABLES: [Row; 1] = [(
    "a member more",
    &[
        (FRONT, b"", 0),
        (b"function f(){}var t0=[", b"f,", 65_535),
        (b"f];var t1=[", b"f,", 65_535),
        (b"f];var t2=[", b"f,", 65_535),
        (b"f];var t3=[", b"f,", 65_535),
        (b"f];var t4=[", b"f,", 65_535),
        (b"f];var t5=[", b"f,", 65_535),
        (b"f];var t6=[", b"f,", 65_535),
        (b"f];var t7=[", b"f,", 65_535),
        (b"f];var t8=[", b"f,", 65_535),
        (b"f];var t9=[", b"f,", 65_535),
        (b"f];var t10=[", b"f,", 65_535),
        (b"f];var t11=[", b"f,", 65_535),
        (b"f];var t12=[", b"f,", 65_535),
        (b"f];var t13=[", b"f,", 65_535),
        (b"f];var t14=[", b"f,", 65_535),
        (b"f];var t15=[", b"f,", 65_535),
        (b"f];var t=[f];return f}", b"", 0),
    ],
    Some((Rule::PastLimit, 2097408)),
)];

#[test]
fn small_limits_are_met(rt: HostRuntime) {
    are_told(&rt, rt.alloc(), &SMALL);
}

#[test]
fn functions_have_a_limit(rt: HostRuntime) {
    are_told(&rt, rt.alloc(), &FUNCTIONS);
}

#[test]
fn locals_have_a_limit(rt: HostRuntime) {
    are_told(&rt, rt.alloc(), &LOCALS);
}

#[test]
fn globals_have_a_limit(rt: HostRuntime) {
    are_told(&rt, rt.alloc(), &GLOBALS);
}

#[test]
fn foreign_calls_have_a_limit(rt: HostRuntime) {
    are_told(&rt, rt.alloc(), &FOREIGN_CALLS);
}

#[test]
fn members_of_a_table_have_a_limit(rt: HostRuntime) {
    are_told(&rt, rt.alloc(), &MEMBERS);
}

#[test]
fn the_longest_chain_is_accepted(rt: HostRuntime) {
    are_told(&rt, rt.alloc(), &LONGEST_CHAIN);
}

#[test]
fn a_longer_chain_is_refused(rt: HostRuntime) {
    are_told(&rt, rt.alloc(), &LONGER_CHAIN);
}

#[test]
fn all_tables_at_the_limit_are_accepted(rt: HostRuntime) {
    are_told(&rt, rt.alloc(), &ALL_TABLES);
}

#[test]
fn a_member_more_of_all_tables_is_refused(rt: HostRuntime) {
    are_told(&rt, rt.alloc(), &MORE_THAN_ALL_TABLES);
}
