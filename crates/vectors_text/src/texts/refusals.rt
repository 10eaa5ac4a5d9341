//! Texts that are refused, each in two parts: the fault is where the second one begins.
use super::{CLOSE, OPEN, fault_of, has_fault};
use crate::pieces::Part;
use crate::rows::holds;
use asm_text::TextFault;
use std::alloc::Global;
use std::process::Abort;

/// A name of what the row shows, and the text before the fault and from it on.
type Row = (&'static str, &'static [u8], &'static [u8]);

/// Which fault a text has where the second part of its row begins.
#[derive(Clone, Copy)]
enum Refusal {
    NonAscii,
    BadToken,
    LiteralForm,
    Grammar,
    NoUseAsm,
}

impl Refusal {
    fn at(self, at: u64) -> TextFault {
        match self {
            Refusal::NonAscii => TextFault::NonAscii { at },
            Refusal::BadToken => TextFault::BadToken { at },
            Refusal::LiteralForm => TextFault::LiteralForm { at },
            Refusal::Grammar => TextFault::Grammar { at },
            Refusal::NoUseAsm => TextFault::NoUseAsm { at },
        }
    }
}

/// The rows between these texts are refused, each where its second part begins.
fn are_refused(
    rt: &impl Abort,
    alloc: Global,
    rows: &[Row],
    refusal: Refusal,
    open: &[u8],
    close: &[u8],
) {
    for (number, (_name, front, back)) in rows.iter().enumerate() {
        let parts: [Part<'_>; 4] = [
            (open, b"", 0),
            (*front, b"", 0),
            (*back, b"", 0),
            (close, b"", 0),
        ];
        let before = (open.len() as u64).saturating_add(front.len() as u64);
        holds(
            rt,
            number,
            has_fault(alloc, &parts, Some(refusal.at(before))),
        );
    }
}

/// The rows as modules, each refused where its second part begins.
fn modules_are_refused(rt: &impl Abort, alloc: Global, rows: &[Row], refusal: Refusal) {
    are_refused(rt, alloc, rows, refusal, b"", b"");
}

/// The rows as statements of a function, each refused where its second part begins.
fn statements_are_refused(rt: &impl Abort, alloc: Global, rows: &[Row], refusal: Refusal) {
    are_refused(rt, alloc, rows, refusal, OPEN, CLOSE);
}

static MODULES: [Row; 20] = [
    ("an empty text", b"", b""),
    ("a text of gaps ends at its length", b" /* */\n", b""),
    ("no function", b" ", b"x"),
    ("a name that goes on", b"", b"functions m(){"),
    ("the end right after the heading", b"function m(){", b""),
    ("the end after a gap", b"function m(){'use asm' ", b""),
    (
        "the end within the module",
        b"function m(){'use asm';return f;",
        b"",
    ),
    (
        "a fourth parameter",
        b"function m(a,b,c",
        b",d){'use asm';return f}",
    ),
    (
        "a second module",
        b"function m(){'use asm';return f}",
        b"function n(){'use asm';return f}",
    ),
    (
        "a second semicolon",
        b"function m(){'use asm';return f};",
        b";",
    ),
    (
        "no semicolon after the directive",
        b"function m(){'use asm' ",
        b"return f}",
    ),
    (
        "an export on the next line",
        b"function m(){'use asm';return\n",
        b"f}",
    ),
    (
        "a reserved word as a name",
        b"function m(){'use asm';var ",
        b"if=1;return f}",
    ),
    (
        "an import or 1",
        b"function m(i){'use asm';var x=i.x|",
        b"1;return f}",
    ),
    (
        "a name as a literal",
        b"function m(){'use asm';var x=-",
        b"x;return f}",
    ),
    (
        "a table without a member",
        b"function m(){'use asm';var t=[",
        b"];return f}",
    ),
    (
        "a function after a table",
        b"function m(){'use asm';var t=[f];",
        b"function f(){}return f}",
    ),
    (
        "the second mark first",
        b"function m(){'use asm';function f(a,b){",
        b"b=b|0;a=a|0}return f}",
    ),
    (
        "a mark or 1",
        b"function m(){'use asm';function f(a){a=a|",
        b"1;}return f}",
    ),
    (
        "an export without a key",
        b"function m(){'use asm';return{f",
        b"}}",
    ),
];

static STATEMENTS: [Row; 43] = [
    ("a name in parentheses as a target", b"(a)", b"=1"),
    ("a sum as a target", b"a+b", b"=1"),
    ("a call as a target", b"f()", b"=1"),
    ("an or as a target", b"a|b", b"=c"),
    ("a star in front", b"", b"*a"),
    ("a list in a conditional", b"a?b", b",c:a"),
    ("a conditional without its end", b"a?b", b";"),
    ("an index closed by a parenthesis", b"a[7", b")"),
    ("two names on a line", b"a ", b"b"),
    ("two numbers on a line", b"1 ", b"1"),
    ("two statements on a line", b"a ", b"if(b);"),
    ("the word in on the next line", b"a\n", b"in b"),
    (
        "the word instanceof on the next line",
        b"a\n",
        b"instanceof b",
    ),
    ("an increment", b"a", b"++"),
    ("an increment on the next line", b"a\n", b"++\nb"),
    ("two minus signs without a space", b"a=", b"--b"),
    ("an else at the front", b"", b"else a"),
    ("a second else", b"if(a)b;else c;", b"else d"),
    ("no semicolon before an else", b"if(a)b ", b"else c"),
    ("a condition without parentheses", b"while ", b"a;"),
    ("a declaration in a for", b"for(", b"var i=0;;);"),
    ("two parts of a for", b"for(a;b", b");"),
    ("one part of a for", b"for(a", b");"),
    ("four parts of a for", b"for(;;", b";);"),
    ("an if without a statement", b"if(a)", b""),
    ("a do without its while", b"do;", b"(a)"),
    ("a case outside a switch", b"", b"case 7:"),
    ("a number behind break", b"break ", b"7"),
    ("two names behind return", b"return a ", b"b"),
    (
        "a case after the default",
        b"switch(a){default:",
        b"case 1:}",
    ),
    ("two defaults", b"switch(a){default:", b"default:}"),
    ("a case of a name", b"switch(a){case ", b"b:}"),
    ("a case of a decimal", b"switch(a){case ", b"1.5:}"),
    ("a statement before the first case", b"switch(a){", b"b;}"),
    ("a call of a call", b"f()", b"()"),
    ("empty parentheses", b"a=(", b")"),
    ("a comma behind the last argument", b"f(a,", b")"),
    ("a member", b"a", b".b"),
    ("a quoted text", b"a=", b"'b'"),
    ("a declaration behind a statement", b"a;", b"var b=0"),
    ("an equality of three signs", b"a", b"===b"),
    ("a logical or", b"a", b"||b"),
    ("a function in a function", b"", b"function g(){}"),
];

#[test]
fn grammar_of_modules(rt: HostRuntime) {
    modules_are_refused(&rt, rt.alloc(), &MODULES, Refusal::Grammar);
}

#[test]
fn grammar_of_statements(rt: HostRuntime) {
    statements_are_refused(&rt, rt.alloc(), &STATEMENTS, Refusal::Grammar);
}

static OTHER_DIRECTIVES: [Row; 5] = [
    (
        "another directive",
        b"function m(){",
        b"'use strict';return f}",
    ),
    ("another gap", b"function m(){", b"\"use  asm\";return f}"),
    ("none", b"function(a,b,c){", b"return f}"),
    ("a brace", b"function m(){ ", b"}"),
    ("a function", b"function m(){\n", b"function f(){'use asm'}"),
];

#[test]
fn no_use_asm(rt: HostRuntime) {
    modules_are_refused(&rt, rt.alloc(), &OTHER_DIRECTIVES, Refusal::NoUseAsm);
}

static LITERALS: [Row; 10] = [
    ("a needless 0", b"a=", b"01"),
    ("no hexadecimal digit", b"a=", b"0x"),
    ("2^64", b"a=", b"18446744073709551616"),
    ("an exponent", b"a=", b"1e5"),
    ("a second dot", b"a=", b"1.5.2"),
    ("a prefix minus before 0", b"a=", b"-0"),
    ("before a hexadecimal 0", b"a=", b"- 0x0"),
    ("behind another prefix", b"a=~", b"-0"),
    ("behind a minus", b"a- ", b"-0"),
    ("in a clause", b"switch(a){case ", b"-0:}"),
];

#[test]
fn literal_forms(rt: HostRuntime) {
    statements_are_refused(&rt, rt.alloc(), &LITERALS, Refusal::LiteralForm);
}

#[test]
fn a_negated_zero(rt: HostRuntime) {
    let text = b"function m(){\"use asm\";function f(){return -0;}return f;}";
    let fault = Some(TextFault::LiteralForm { at: 43 });
    holds(&rt, 0, fault_of(rt.alloc(), text) == fault);
}

/// Faults of tokens, wherever the grammar has one.
static BAD_TOKENS: [Row; 6] = [
    ("a byte that begins none", b"a=", b"@"),
    ("an open quote", b"a=", b"'b"),
    ("a quote over a line end", b"a=", b"'b\n'"),
    ("a backslash in quotes", b"a=", b"'\\n'"),
    ("behind a fault of the grammar", b")( ", b"#"),
    ("behind a prefix minus before 0", b"a=-0;a=", b"@"),
];

#[test]
fn bad_tokens(rt: HostRuntime) {
    statements_are_refused(&rt, rt.alloc(), &BAD_TOKENS, Refusal::BadToken);
}

static NON_ASCII: [Row; 4] = [
    ("a letter", b"a=", b"\xc3\xa9"),
    ("a line separator in a comment", b"a//", b"\xe2\x80\xa8"),
    (
        "a paragraph separator in a comment",
        b"a/* ",
        b"\xe2\x80\xa9*/",
    ),
    ("behind a fault of the grammar", b"== ", b"\xff"),
];

#[test]
fn other_bytes(rt: HostRuntime) {
    statements_are_refused(&rt, rt.alloc(), &NON_ASCII, Refusal::NonAscii);
}

#[test]
fn an_open_comment(rt: HostRuntime) {
    let text = b"function m(){}/*/ * /";
    let fault = Some(TextFault::OpenComment { at: 14 });
    holds(&rt, 0, fault_of(rt.alloc(), text) == fault);
}

const WHOLE: &[u8] =
    b"function m(){\"use asm\";function f(a,b){a=a|0;b=b|0;return a+b|0;}return f;}";

/// Why the front of so many bytes is refused: at its end, or at a last token that is cut off within.
fn fault_of_front(n: usize) -> TextFault {
    match n {
        0..=7 => TextFault::Grammar { at: 0 },
        14..=21 => TextFault::BadToken { at: 13 },
        24..=30 => TextFault::Grammar { at: 23 },
        66..=70 => TextFault::Grammar { at: 65 },
        _ => TextFault::Grammar { at: n as u64 },
    }
}

/// Each front of a module is refused.
#[test]
fn fronts(rt: HostRuntime) {
    holds(&rt, 75, WHOLE.len() == 75);
    holds(&rt, 76, fault_of(rt.alloc(), WHOLE).is_none());
    for n in 0..75 {
        let (front, _) = WHOLE.split_at(n);
        let fault = fault_of(rt.alloc(), front);
        holds(&rt, n, fault == Some(fault_of_front(n)));
    }
}
