//! Texts with the canonical text of their module, which is read as the module again.
use super::{CLOSE, OPEN};
use crate::rows::holds;
use asm_grammar_print::print;
use asm_text::{read, reprinted};
use asm_tree::{Module, Parsed};
use std::alloc::{AllocError, Global};
use std::process::Abort;

/// A name of what the row shows, a text, and its canonical text.
type Row = (&'static str, &'static [u8], &'static [u8]);

/// The module is printed as `want`.
fn is_printed(alloc: Global, module: &Module, want: &[u8]) -> bool {
    match print(alloc, module) {
        Ok(text) => text.as_slice() == want,
        Err(_) => false,
    }
}

/// What is printed of the module is read as the same module, which is printed as `want`, at these places.
fn is_read_again(alloc: Global, module: &Module, want: &[u8], places: &[u64]) -> bool {
    match reprinted(alloc, module) {
        Ok(again) => { is_printed(alloc, &again.module, want) && again.places.as_slice() == places }
        Err(_) => false,
    }
}

/// The text's module is printed as `want`, and what is printed is read as the same module, at the places of what `want` says.
fn is_said(alloc: Global, text: &[u8], want: &[u8], there: &Parsed) -> bool {
    match read(alloc, text) {
        Ok(said) => {
            is_printed(alloc, &said.module, want)
                && is_read_again(alloc, &said.module, want, there.places.as_slice())
        }
        Err(_) => false,
    }
}

/// The text's module and that of `want` are printed as `want`, and what is printed is read as the same module, at the same places.
fn comes_back(alloc: Global, text: &[u8], want: &[u8]) -> bool {
    match read(alloc, want) {
        Ok(there) => is_printed(alloc, &there.module, want) && is_said(alloc, text, want, &there),
        Err(_) => false,
    }
}

/// The pieces of a text, one after the other.
fn between(alloc: Global, front: &[u8], body: &[u8], end: &[u8]) -> Result<Vec<u8>, AllocError> {
    let mut text = Vec::from_slice(alloc, front)?;
    text.extend_from_slice(body)?;
    text.extend_from_slice(end)?;
    Ok(text)
}

/// The same for statements, alone in a function.
fn body_comes_back(alloc: Global, body: &[u8], want: &[u8]) -> bool {
    let Ok(text) = between(alloc, OPEN, body, CLOSE) else {
        return false;
    };
    match between(
        alloc,
        b"function m(){\"use asm\";\nfunction f(){",
        want,
        b"}\nreturn f;}\n",
    ) {
        Ok(want) => comes_back(alloc, &text, &want),
        Err(_) => false,
    }
}

/// The rows as statements.
fn bodies_come_back(rt: &impl Abort, alloc: Global, rows: &[Row]) {
    for (number, (_name, body, want)) in rows.iter().enumerate() {
        holds(rt, number, body_comes_back(alloc, body, want));
    }
}

static STATEMENTS: [Row; 31] = [
    ("empty", b";", b";"),
    ("blocks", b"{}{a;b;{c}}", b"{}{a;b;{c;}}"),
    ("if", b"if(a);", b"if(a);"),
    ("if with a block", b"if(a,b){c}", b"if(a,b){c;}"),
    ("if and else", b"if ( a ) b ; else c ;", b"if(a)b;else c;"),
    (
        "else if",
        b"if(a)b;else if(c){}else d;",
        b"if(a)b;else if(c){}else d;",
    ),
    (
        "else goes to the nearest if",
        b"if(a)if(b)c;else d;",
        b"if(a)if(b)c;else d;",
    ),
    (
        "a block ends an arm",
        b"if(a){if(b)c;}else d;",
        b"if(a){if(b)c;}else d;",
    ),
    (
        "return",
        b"return;return a;return(1)",
        b"return;return a;return 1;",
    ),
    ("return on a line", b"return\na;", b"return;a;"),
    (
        "return with a sign or a list",
        b"return-1;return+a;return a,b",
        b"return-1;return+a;return a,b;",
    ),
    (
        "a switch without a statement in its first clause",
        b"switch(a){case 0:case-1:b;break;default:c}",
        b"switch(a){case 0:case-1:b;break;default:c;}",
    ),
    ("while", b"while(a)b;while(1){}", b"while(a)b;while(1){}"),
    (
        "do",
        b"do a;while(b);do{}while(c);",
        b"do a;while(b);do{}while(c);",
    ),
    (
        "do without semicolon",
        b"do a;while(b)c;",
        b"do a;while(b);c;",
    ),
    (
        "do with an empty statement",
        b"do a;while(b);;",
        b"do a;while(b);;",
    ),
    (
        "for",
        b"for(;;);for(a=0;a;a=b)c;",
        b"for(;;);for(a=0;a;a=b)c;",
    ),
    (
        "for with lists",
        b"for(a,b;c,d;e,f){g}",
        b"for(a,b;c,d;e,f){g;}",
    ),
    (
        "break and continue",
        b"while(a){break;continue}",
        b"while(a){break;continue;}",
    ),
    (
        "to a label",
        b"L:while(a){break L\ncontinue L}",
        b"L:while(a){break L;continue L;}",
    ),
    (
        "a label on the next line",
        b"L:for(;;){break\nL}",
        b"L:for(;;){break;L;}",
    ),
    ("labels", b"a : b:{c:d:;}", b"a:b:{c:d:;}"),
    ("a name that is no label", b"a\nb:;", b"a;b:;"),
    ("switch", b"switch(a){}", b"switch(a){}"),
    (
        "clauses",
        b"switch(a|0){case 1:b;break\ncase-0x2:case 3:c;default:d}",
        b"switch(a|0){case 1:b;break;case-2:case 3:c;default:d;}",
    ),
    (
        "clauses past 64 bits have the nearest number",
        b"switch(a){case 9223372036854775808:case-9223372036854775809:}",
        b"switch(a){case 9223372036854775807:case-9223372036854775808:}",
    ),
    ("a semicolon missing before a brace", b"{a}b", b"{a;}b;"),
    ("before a name on a line", b"a\nb\r\nc", b"a;b;c;"),
    ("before a number on a line", b"a\n1\n.5", b"a;1;.5;"),
    (
        "a comment with a line end",
        b"a/*\n*/b// \nreturn",
        b"a;b;return;",
    ),
    (
        "before a reserved word on a line",
        b"a\nif(b)c\nwhile(d);",
        b"a;if(b)c;while(d);",
    ),
];

#[test]
fn statements(rt: HostRuntime) {
    bodies_come_back(&rt, rt.alloc(), &STATEMENTS);
}

static EXPRESSIONS: [Row; 47] = [
    ("list", b"a,b,c", b"a,b,c;"),
    ("list in a list", b"(a,b),c,(d,e)", b"(a,b),c,(d,e);"),
    ("assignment", b"a=b=1", b"a=b=1;"),
    ("store", b"a[b,c]=d[e]=f", b"a[b,c]=d[e]=f;"),
    ("a list is assigned", b"a=(b,c)", b"a=(b,c);"),
    ("conditional", b"a?b:c", b"a?b:c;"),
    (
        "conditionals to the right",
        b"a?b=1:c?d:e=2",
        b"a?b=1:c?d:e=2;",
    ),
    ("conditionals to the left", b"(a?b:c)?d:e", b"(a?b:c)?d:e;"),
    ("an assignment as condition", b"(a=b)?c:d", b"(a=b)?c:d;"),
    (
        "from the weakest to the strongest",
        b"a|b^c&d==e<f<<g+h*!i",
        b"a|b^c&d==e<f<<g+h*!i;",
    ),
    (
        "from the strongest to the weakest",
        b"(((((((!a*b)+c)<<d)<e)==f)&g)^h)|i",
        b"!a*b+c<<d<e==f&g^h|i;",
    ),
    (
        "weak ones in strong ones",
        b"!(a*(b+(c<<(d<(e==(f&(g^(h|i))))))))",
        b"!(a*(b+(c<<(d<(e==(f&(g^(h|i))))))));",
    ),
    ("bitwise or to the right", b"a|(b|c)", b"a|(b|c);"),
    ("bitwise or to the left", b"(a|b)|c", b"a|b|c;"),
    ("exclusive or", b"a^b^(c^d)", b"a^b^(c^d);"),
    ("bitwise and", b"a&b&(c&d)", b"a&b&(c&d);"),
    ("equality", b"a==b!=(c==d)", b"a==b!=(c==d);"),
    ("comparisons", b"a<b<=c>d>=(e<f)", b"a<b<=c>d>=(e<f);"),
    ("shifts", b"a<<b>>c>>>(d<<e)", b"a<<b>>c>>>(d<<e);"),
    ("sums", b"a+b-c+(d-e)", b"a+b-c+(d-e);"),
    ("a sum's front", b"((a+b)-c)+d", b"a+b-c+d;"),
    ("a sum times", b"(a-b)*c", b"(a-b)*c;"),
    ("products", b"a*b/c%(d*e)", b"a*b/c%(d*e);"),
    ("prefixes", b"-a;+b;~c;!d;~~e", b"-a;+b;~c;!d;~~e;"),
    ("a prefix of a sum", b"~(a+b)+c", b"~(a+b)+c;"),
    ("two prefix minus signs", b"- -a", b"- -a;"),
    ("minus minus", b"a- -b;a- -1", b"a- -b;a- -1;"),
    ("plus plus", b"a+ +b", b"a+ +b;"),
    ("plus minus", b"a+-b;a-+b", b"a+-b;a-+b;"),
    ("negative literals", b"-1;- 2;-0x10", b"-1;-2;-16;"),
    ("minus a literal", b"-(1);-(0)", b"-(1);-(0);"),
    ("minus a negative literal", b"- -5", b"- -5;"),
    ("minus a decimal", b"- 1.5", b"-1.5;"),
    ("plus a literal", b"+ 5;+ +a", b"+5;+ +a;"),
    ("a negative literal more", b"a+ -1", b"a+-1;"),
    ("less than a negative literal", b"a< -1", b"a<-1;"),
    ("a shift by 0", b"a>>>0", b"a>>>0;"),
    ("a decimal in a conditional", b"a?.5:b", b"a?.5:b;"),
    ("a list in a conditional", b"a?(b,c):d", b"a?(b,c):d;"),
    ("an assignment in an or", b"(a=b)|0", b"(a=b)|0;"),
    ("minus zero with two operands", b"a-0", b"a-0;"),
    (
        "numbers",
        b"0;0x1F;0XfF;18446744073709551615;-0xffffffffffffffff",
        b"0;31;255;18446744073709551615;-18446744073709551615;",
    ),
    ("decimals", b"1.5;.5;5.;0.0", b"1.5;.5;5.;0.0;"),
    (
        "calls",
        b"f();f(a);f(a,b=1,(c,d))",
        b"f();f(a);f(a,b=1,(c,d));",
    ),
    (
        "calls of a table",
        b"t[a&3]();t[b,c](d,e)",
        b"t[a&3]();t[b,c](d,e);",
    ),
    ("elements", b"a[b>>2];a[b[c]]", b"a[b>>2];a[b[c]];"),
    ("parentheses", b"((a));(((b)))+(c)", b"a;b+c;"),
];

#[test]
fn expressions(rt: HostRuntime) {
    bodies_come_back(&rt, rt.alloc(), &EXPRESSIONS);
}

static MODULES: [Row; 15] = [
    (
        "no name, no parameter",
        b"function(){'use asm'\nreturn{}}",
        b"function(){\"use asm\";\nreturn{};}\n",
    ),
    (
        "one parameter, and a semicolon at the end",
        b"function m(a){'use asm';return f};",
        b"function m(a){\"use asm\";\nreturn f;}\n",
    ),
    (
        "three parameters",
        b"function m ( a , b , c ) { \"use asm\" ; return f }",
        b"function m(a,b,c){\"use asm\";\nreturn f;}\n",
    ),
    (
        "literals",
        b"function m(){'use asm';var a=1,b=-0x2,c=1.5,d=-0.0,e=0;return f}",
        b"function m(){\"use asm\";\nvar a=1;\nvar b=-2;\nvar c=1.5;\nvar d=-0.0;\nvar e=0;\nreturn f;}\n",
    ),
    (
        "imports",
        b"function m(s,i){'use asm';var a=i.x|0,b=+i.if\nvar c=i.Math;return f}",
        b"function m(s,i){\"use asm\";\nvar a=i.x|0;\nvar b=+i.if;\nvar c=i.Math;\nreturn f;}\n",
    ),
    (
        "of the library",
        b"function m(s){'use asm';var a=s.Math.imul,b=s.Infinity;return f}",
        b"function m(s){\"use asm\";\nvar a=s.Math.imul;\nvar b=s.Infinity;\nreturn f;}\n",
    ),
    (
        "views",
        b"function m(s,i,h){'use asm';var a=new s.Int32Array(h)\nvar b=new s.Uint8Array(h);return f}",
        b"function m(s,i,h){\"use asm\";\nvar a=new s.Int32Array(h);\nvar b=new s.Uint8Array(h);\nreturn f;}\n",
    ),
    (
        "a literal past 64 bits with its sign is the nearest one",
        b"function m(){'use asm';var a=18446744073709551615,b=-18446744073709551615;return f}",
        b"function m(){\"use asm\";\nvar a=9223372036854775807;\nvar b=-9223372036854775808;\nreturn f;}\n",
    ),
    (
        "marks",
        b"function m(){'use asm';function f(a,b){a=a|0;b=+b}return f}",
        b"function m(){\"use asm\";\nfunction f(a,b){a=a|0;b=+b;}\nreturn f;}\n",
    ),
    (
        "marks on lines",
        b"function m(){'use asm';function f(a,b){a=a|0x0\nb=+b\nvar c=0}return f}",
        b"function m(){\"use asm\";\nfunction f(a,b){a=a|0;b=+b;var c=0;}\nreturn f;}\n",
    ),
    (
        "locals",
        b"function m(){'use asm';function f(){var a=0,b=-1.5;var c=-2\nreturn a}return f}",
        b"function m(){\"use asm\";\nfunction f(){var a=0,b=-1.5,c=-2;return a;}\nreturn f;}\n",
    ),
    (
        "functions",
        b"function m(){'use asm';function f(){}function g(){f()}return g}",
        b"function m(){\"use asm\";\nfunction f(){}\nfunction g(){f();}\nreturn g;}\n",
    ),
    (
        "tables",
        b"function m(){'use asm';function f(){}var t=[f],u=[f,f]\nvar v=[f];return f}",
        b"function m(){\"use asm\";\nfunction f(){}\nvar t=[f];\nvar u=[f,f];\nvar v=[f];\nreturn f;}\n",
    ),
    (
        "exports",
        b"function m(){'use asm';function f(){}return{a:f,if:f}}",
        b"function m(){\"use asm\";\nfunction f(){}\nreturn{a:f,if:f};}\n",
    ),
    (
        "a comma behind the last export",
        b"function m(){'use asm';function f(){}return{a:f,}}",
        b"function m(){\"use asm\";\nfunction f(){}\nreturn{a:f};}\n",
    ),
];

#[test]
fn modules(rt: HostRuntime) {
    for (number, (_name, text, want)) in MODULES.iter().enumerate() {
        holds(&rt, number, comes_back(rt.alloc(), text, want));
    }
}

/// A module with its places: module, function, parameter, statement, `|`, `+`, its operands, `0`, export.
const WITH_PLACES: &[u8] = b"function m(){\"use asm\";function f(x){x=x|0;return x+1|0;}return f;}";

static OF_ALL: [u64; 10] = [0, 32, 34, 43, 53, 51, 50, 52, 54, 64];

#[test]
fn places(rt: HostRuntime) {
    match read(rt.alloc(), WITH_PLACES) {
        Ok(parsed) => holds(&rt, 0, parsed.places.as_slice() == OF_ALL.as_slice()),
        Err(_) => holds(&rt, 1, false),
    }
}

/// Statements, and where their nodes stand in them: a whole before its parts.
static PLACES: [(&'static [u8], &'static [u64]); 18] = [
    (b"{;}", &[0, 1]),
    (b"a:b:;", &[0, 4]),
    (b"if(a)if(b);else c;", &[0, 3, 5, 8, 10, 16, 16]),
    (
        b"if(a)while(b)do;while(c)else;",
        &[0, 3, 5, 11, 13, 15, 22, 28],
    ),
    (b"for(a;;b);for(;c;);", &[0, 4, 7, 9, 10, 15, 18]),
    (b"return\n7\nreturn 7;", &[0, 7, 7, 9, 16]),
    (b"break\ncontinue a\nb", &[0, 6, 17, 17]),
    (b"switch(a){case 7:b;case-7:default:;}", &[0, 7, 17, 17, 34]),
    (b"do;while(a)b", &[0, 2, 9, 11, 11]),
    (b"a+b-c;", &[0, 1, 0, 2, 4]),
    (b"a*b-c;", &[0, 3, 1, 0, 2, 4]),
    (b"- -7;", &[0, 0, 2]),
    (b"a[b](c);", &[0, 0, 2, 5]),
    (b"a=b=c;", &[0, 1, 3, 4]),
    (b"a[b]=c,a;", &[0, 6, 4, 2, 5, 7]),
    (b"a?b:c?a:b;", &[0, 1, 0, 2, 5, 4, 6, 8]),
    (b"(a,b),c;", &[0, 5, 2, 1, 3, 6]),
    (b"a(b=c,b?c:a);", &[0, 0, 3, 4, 7, 6, 8, 10]),
];

/// The places are these, counted from where the statements begin: the module and the function stand before, the export behind.
fn are_places(found: &[u64], want: &[u64]) -> bool {
    let begin = OPEN.len() as u64;
    let mut are = found.len() == want.len().saturating_add(3);
    for (place, want) in found.iter().skip(2).zip(want.iter()) {
        are &= *place == want.saturating_add(begin);
    }
    are
}

fn has_places(alloc: Global, body: &[u8], want: &[u64]) -> bool {
    let Ok(text) = between(alloc, OPEN, body, CLOSE) else {
        return false;
    };
    match read(alloc, &text) {
        Ok(parsed) => are_places(parsed.places.as_slice(), want),
        Err(_) => false,
    }
}

#[test]
fn places_in_statements(rt: HostRuntime) {
    for (number, (body, want)) in PLACES.iter().enumerate() {
        holds(&rt, number, has_places(rt.alloc(), body, want));
    }
}
