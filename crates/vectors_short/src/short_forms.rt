//! Texts, and their short forms.
use asm_grammar_print::print;
use asm_short::shorten;
use cmd_check_asm::check_text;
use std::alloc::Global;

struct Row {
    text: &'static [u8],
    short: &'static [u8],
}

static ROWS: [Row; 8] = [
    Row {
        text: b"function mod(){\"use asm\";function unused(x){x=x|0;return x|0;}function add(left,right){left=left|0;right=right|0;return left+right|0;}return {sum:add};}",
        short: b"function mod(){\"use asm\";\nfunction a(a,b){a=a|0;b=b|0;return a+b|0;}\nreturn{sum:a};}\n",
    },
    Row {
        text: b"function m(){\"use asm\";function f(x,y){x=x|0;y=y|0;return x+y|0;}return f;}",
        short: b"function m(){\"use asm\";\nfunction f(a,b){a=a|0;b=b|0;return a+b|0;}\nreturn f;}\n",
    },
    Row {
        text: b"function m(a,b,c){\"use asm\";var d=1;function g(){return d|0;}function e(){return g()|0;}function dead(){return dead()|0;}return g;}",
        short: b"function m(a,b,c){\"use asm\";\nvar d=1;\nfunction g(){return d|0;}\nreturn g;}\n",
    },
    Row {
        text: b"function m(){\"use asm\";function f(x,y){x=x|0;y=y|0;do{a:while(1){break a;}}while(0);a:{break a;}return x+y|0;}return f;}",
        short: b"function m(){\"use asm\";\nfunction f(a,b){a=a|0;b=b|0;do{a:while(1){break a;}}while(0);b:{break b;}return a+b|0;}\nreturn f;}\n",
    },
    Row {
        text: b"function m(s){\"use asm\";var g=0;function a(){return g|0;}return a;}",
        short: b"function m(b){\"use asm\";\nvar c=0;\nfunction a(){return c|0;}\nreturn a;}\n",
    },
    Row {
        text: b"function m(){\"use asm\";function p(x){x=x|0;return x|0;}function q(x){x=x|0;return x|0;}function f(x){x=x|0;return t[x&1](x)|0;}function dead(x){x=x|0;return u[x&1](x)|0;}var t=[p,q],u=[q,q];return {f:f};}",
        short: b"function m(){\"use asm\";\nfunction a(a){a=a|0;return a|0;}\nfunction b(a){a=a|0;return a|0;}\nfunction c(a){a=a|0;return d[a&1](a)|0;}\nvar d=[a,b];\nreturn{f:c};}\n",
    },
    Row {
        text: b"function m(){\"use asm\";var g=0,h=0;function f(x){x=x|0;var h=0,k=0;g=h;return h|0;}return {f:f};}",
        short: b"function m(){\"use asm\";\nvar a=0;\nvar b=0;\nfunction c(b){b=b|0;var c=0,d=0;a=c;return c|0;}\nreturn{f:c};}\n",
    },
    Row {
        text: b"function m(){\"use asm\";function k(){}function f(k){k=k|0;return k|0;}return {f:f};}",
        short: b"function m(){\"use asm\";\nfunction a(a){a=a|0;return a|0;}\nreturn{f:a};}\n",
    },
];

fn short_text(alloc: Global, text: &[u8]) -> Option<Vec<u8>> {
    let Ok(checked) = check_text(alloc, text) else {
        return None;
    };
    let Ok(short) = shorten(alloc, &checked) else {
        return None;
    };
    match print(alloc, short.module()) {
        Ok(text) => Some(text),
        Err(_) => None,
    }
}

/// The text has this short form.
fn is_short(alloc: Global, text: &[u8], short: &[u8]) -> bool {
    match short_text(alloc, text) {
        Some(found) => found.as_slice() == short,
        None => false,
    }
}

/// The short form of each text is its own.
#[test]
fn texts_are_shortened(rt: HostRuntime) {
    let alloc = rt.alloc();
    for (number, row) in ROWS.iter().enumerate() {
        let is_so = is_short(alloc, row.text, row.short) && is_short(alloc, row.short, row.short);
        assert!(rt; is_so, "row {number}");
    }
}
