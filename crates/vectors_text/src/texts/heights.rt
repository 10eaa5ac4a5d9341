//! Texts of great height or length. The function adds a level to the highest of its statements, and the module another one.
use super::{CLOSE, OPEN, fault_of};
use crate::pieces::{Part, joined};
use crate::rows::holds;
use asm_text::TextFault;
use std::alloc::Global;
use std::process::Abort;

/// A name of what the row shows, what stands in front, what opens a level, how often, what stands inside, and what closes a level.
type Row = (
    &'static str,
    &'static [u8],
    &'static [u8],
    usize,
    &'static [u8],
    &'static [u8],
);

/// A text has no fault, a node that is too high where it ends or at a place, or nothing but its end where more is due.
#[derive(Clone, Copy)]
enum Due {
    Module,
    HighAtEnd,
    HighAt(u64),
    Open,
    /// A byte that begins no token, its last one.
    LastByte,
}

impl Due {
    /// The fault of a text of this length.
    fn fault(self, length: u64) -> Option<TextFault> {
        let last = length.saturating_sub(1);
        match self {
            Due::Module => None,
            Due::HighAtEnd => Some(TextFault::Height { at: last }),
            Due::HighAt(at) => Some(TextFault::Height { at }),
            Due::Open => Some(TextFault::Grammar { at: length }),
            Due::LastByte => Some(TextFault::BadToken { at: last }),
        }
    }
}

/// The text of these parts is as is due.
fn is_due(alloc: Global, parts: &[Part<'_>], due: Due) -> bool {
    match joined(alloc, parts) {
        Ok(text) => fault_of(alloc, &text) == due.fault(text.len() as u64),
        Err(_) => false,
    }
}

/// The row, with so many levels, is as is due.
fn is_row(alloc: Global, row: &Row, count: usize, due: Due) -> bool {
    let (_, front, open, _, inside, close) = *row;
    let parts: [Part<'_>; 4] = [
        (OPEN, b"", 0),
        (front, open, count),
        (inside, close, count),
        (CLOSE, b"", 0),
    ];
    is_due(alloc, &parts, due)
}

/// The counts with which the module has the height 1,000. At one more it is refused, where it ends.
static STATEMENTS: [Row; 10] = [
    ("blocks", b"", b"{", 998, b"", b"}"),
    ("blocks under labels", b"", b"a:{", 998, b"", b"}"),
    ("if", b"", b"if(a)", 997, b";", b""),
    ("if with a block", b"", b"if(a){", 997, b"", b"}"),
    ("else if", b"if(a)", b";else if(a)", 996, b";", b""),
    ("while", b"", b"while(a)", 997, b";", b""),
    ("do", b"", b"do ", 997, b";", b"while(a);"),
    ("for", b"", b"for(;;)", 997, b";", b""),
    ("for with a block", b"", b"for(;;){", 997, b"", b"}"),
    ("switch", b"", b"switch(a){case 1:", 997, b"", b"}"),
];

static EXPRESSIONS: [Row; 13] = [
    ("prefixes", b"", b"!", 996, b"a", b""),
    ("prefixes after return", b"return ", b"~", 996, b"a", b""),
    (
        "prefixes below a bitwise or",
        b"return ",
        b"!",
        995,
        b"a|0",
        b"",
    ),
    ("elements", b"", b"a[", 996, b"0", b"]"),
    ("calls", b"", b"f(", 996, b"0", b")"),
    ("calls of a table", b"", b"t[0](", 996, b"0", b")"),
    ("assignments", b"", b"a=", 996, b"0", b""),
    ("stores", b"", b"a[0]=", 996, b"0", b""),
    ("last parts of conditionals", b"", b"a?b:", 996, b"c", b""),
    ("middle parts of conditionals", b"", b"a?", 996, b"b", b":c"),
    ("bitwise or", b"", b"a|", 996, b"b", b""),
    ("products", b"", b"a*", 996, b"b", b""),
    ("sums to the right", b"", b"a+(", 996, b"b", b")"),
];

/// The rows' counts are accepted, and one more is refused; the rows of these count from 100 on.
fn meet_the_limit(rt: &impl Abort, alloc: Global, rows: &[Row]) {
    for (number, row) in rows.iter().enumerate() {
        let more = row.3.saturating_add(1);
        holds(rt, number, is_row(alloc, row, row.3, Due::Module));
        let number = number.saturating_add(100);
        holds(rt, number, is_row(alloc, row, more, Due::HighAtEnd));
    }
}

#[test]
fn statements(rt: HostRuntime) {
    meet_the_limit(&rt, rt.alloc(), &STATEMENTS);
}

#[test]
fn expressions(rt: HostRuntime) {
    meet_the_limit(&rt, rt.alloc(), &EXPRESSIONS);
}

/// What adds no height, at great length.
static FLAT: [Row; 8] = [
    ("parentheses", b"", b"(", 20000, b"a", b")"),
    (
        "parentheses round a sum's front",
        b"",
        b"(",
        20000,
        b"a",
        b"+b)",
    ),
    ("a list", b"", b"a,", 20000, b"b", b""),
    ("a sum", b"", b"a-", 20000, b"b", b""),
    ("labels", b"", b"a:", 20000, b";", b""),
    ("statements", b"", b"a;", 20000, b"", b""),
    ("clauses", b"switch(a){", b"case 1:", 20000, b"}", b""),
    ("arguments", b"f(", b"a,", 20000, b"b)", b""),
];

#[test]
fn no_height(rt: HostRuntime) {
    for (number, row) in FLAT.iter().enumerate() {
        holds(&rt, number, is_row(rt.alloc(), row, row.3, Due::Module));
    }
}

/// A function with one parameter, up to what it returns.
const NEGATING: &[u8] = b"function m(){\"use asm\";function f(x){x=x|0;return ";

/// How many `!` the parameter is returned behind, and what is due: with 995 of them the height is 1,000, and with one more the module
/// is refused where it ends.
static NEGATIONS: [(usize, Due); 2] = [(995, Due::Module), (996, Due::HighAt(1060))];

#[test]
fn negations_of_a_parameter(rt: HostRuntime) {
    for (number, (count, due)) in NEGATIONS.iter().enumerate() {
        let parts: [Part<'_>; 2] = [(NEGATING, b"!", *count), (b"x|0;}return f;}", b"", 0)];
        holds(&rt, number, is_due(rt.alloc(), &parts, *due));
    }
}

/// How many blocks stand one inside another, with the labels a0, a1 and so on: with 998 of them the height is 1,000, and with one more
/// the module is refused where it ends.
static LABELLED: [(usize, Due); 2] = [(998, Due::Module), (999, Due::HighAtEnd)];

#[test]
fn blocks_with_labels_of_their_own(rt: HostRuntime) {
    for (number, (count, due)) in LABELLED.iter().enumerate() {
        let parts: [Part<'_>; 3] = [
            (OPEN, b"a#:{", *count),
            (b"", b"}", *count),
            (CLOSE, b"", 0),
        ];
        holds(&rt, number, is_due(rt.alloc(), &parts, *due));
    }
}

/// A name of what the row shows, and what stands 2,000 times in a function that has no end.
static OPENED: [(&'static str, &'static [u8]); 11] = [
    ("parentheses", b"("),
    ("blocks", b"{"),
    ("blocks under labels", b"a:{"),
    ("prefixes", b"!"),
    ("elements", b"a["),
    ("calls", b"f("),
    ("sums", b"a+("),
    ("if", b"if(a)"),
    ("do", b"do "),
    ("for with a block", b"for(;;){"),
    ("switch", b"switch(a){case 1:"),
];

/// What stays open completes no node, at whatever depth: the fault is the end of the text.
#[test]
fn left_open(rt: HostRuntime) {
    for (number, (_name, piece)) in OPENED.iter().enumerate() {
        let parts: [Part<'_>; 1] = [(OPEN, *piece, 2000)];
        holds(&rt, number, is_due(rt.alloc(), &parts, Due::Open));
    }
}

/// Rows of 2,000 levels, and how many bytes stand before the token that completes the first node of height 1,001, from the
/// first statement on.
static EARLY: [(Row, usize); 9] = [
    (("blocks", b"", b"{", 2000, b"", b"}"), 3000),
    (("if", b"", b"if(a)", 2000, b";", b""), 10000),
    (("do", b"", b"do ", 2000, b";", b"while(a);"), 14999),
    (("prefixes", b"", b"!", 2000, b"a", b""), 2000),
    (("calls", b"", b"f(", 2000, b"0", b")"), 5000),
    (("assignments", b"", b"a=", 2000, b"0", b""), 1998),
    (("bitwise or", b"", b"a|", 2000, b"b", b""), 1998),
    (("elements", b"", b"a[", 2000, b"0", b"]"), 5000),
    (("sums to the right", b"", b"a+(", 2000, b"b", b")"), 7000),
];

/// The fault stands where the node is complete, long before the module's end.
#[test]
fn before_the_end(rt: HostRuntime) {
    for (number, (row, before)) in EARLY.iter().enumerate() {
        let at = (OPEN.len() as u64).saturating_add(*before as u64);
        holds(&rt, number, is_row(rt.alloc(), row, row.3, Due::HighAt(at)));
    }
}

/// Blocks of 2,000 levels, and a fault of a token behind them, which counts first.
static WITH_A_BAD_TOKEN: [Part<'static>; 3] = [
    (OPEN, b"{", 2000),
    (b"", b"}", 2000),
    (b"}return f;} a@", b"", 0),
];

#[test]
fn before_a_bad_token(rt: HostRuntime) {
    holds(&rt, 0, is_due(rt.alloc(), &WITH_A_BAD_TOKEN, Due::LastByte));
}
