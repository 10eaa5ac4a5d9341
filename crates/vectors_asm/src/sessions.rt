//! Sessions of modules that are given as texts, with a heap of 4,096 bytes.
use crate::program::{RUN_ASM, Row, all_print, over};
use crate::rows::holds;
use crate::texts::{LOOPING, SUM};

const HEAP: &[&str] = &["--heap", "4096"];

static ROWS: [Row; 13] = [
    Row {
        name: "a sum that wraps",
        module: SUM,
        options: HEAP,
        script: b"call f 2147483647 1",
        printed: b"result -2147483648\nend done\n",
    },
    Row {
        name: "quotients",
        module: b"function m(){\"use asm\";function d(a,b){a=a|0;b=b|0;return (a|0)/(b|0)|0;}return d;}",
        options: HEAP,
        script: b"call d -2147483648 -1\ncall d 7 0\ncall d -7 2",
        printed: b"result -2147483648\nresult 0\nresult -3\nend done\n",
    },
    Row {
        name: "truth values",
        module: b"function m(){\"use asm\";function f(a,b){a=a|0;b=b|0;var x=0;x=(a|0)<(b|0);return x+x|0;}return f;}",
        options: HEAP,
        script: b"call f 1 2",
        printed: b"result 2\nend done\n",
    },
    Row {
        name: "a store past the heap",
        module: b"function m(s,f,h){\"use asm\";var H=new s.Int32Array(h);function g(){H[4096>>2]=9;return H[4096>>2]|0;}return g;}",
        options: HEAP,
        script: b"call g",
        printed: b"result 0\nend done\n",
    },
    Row {
        name: "views of one heap",
        module: b"function m(s,f,h){\"use asm\";var A=new s.Int32Array(h),B=new s.Uint8Array(h),C=new s.Int16Array(h);function a(){A[0]=-2;return B[0]|0;}function c(){return C[1]|0;}return {a:a,c:c};}",
        options: HEAP,
        script: b"call a\ncall c",
        printed: b"result 254\nresult -1\nend done\nheap 0 feffffff000000000000000000000000\n",
    },
    Row {
        name: "two shapes of a call",
        module: b"function m(s,e){\"use asm\";var f=e.f;function r(){f(1)|0;f(1,2);}return r;}",
        options: HEAP,
        script: b"call r\nreply 5\nreply 0",
        printed: b"import f 1\nimport f 1 2\nreturned\nend done\n",
    },
    Row {
        name: "a table",
        module: b"function m(){\"use asm\";function a(x){x=x|0;return x+10|0;}function b(x){x=x|0;return x+20|0;}function c(x){x=x|0;return x+30|0;}function d(x){x=x|0;return x+40|0;}function f(e){e=e|0;return t[e&3](1)|0;}var t=[a,b,c,d];return f;}",
        options: HEAP,
        script: b"call f -1",
        printed: b"result 41\nend done\n",
    },
    Row {
        name: "a switch",
        module: b"function m(){\"use asm\";function f(x){x=x|0;var y=0;switch(x|0){case 1:y=y+1|0;case 5:y=y+10|0;default:y=y+100|0;}return y|0;}return f;}",
        options: HEAP,
        script: b"call f 1\ncall f 5\ncall f 9",
        printed: b"result 111\nresult 110\nresult 100\nend done\n",
    },
    Row {
        name: "labels: each even i below n leaves M and is counted; an odd one goes on with L before it is",
        module: b"function m(){\"use asm\";function f(n){n=n|0;var i=0,j=0,s=0;L:for(i=1;(i|0)<100;i=i+1|0){M:for(j=0;(j|0)<3;j=j+1|0){if((i|0)>=(n|0))break L;if((j|0)==1)continue L;if((i&1)==0)break M;}s=s+1|0;}return s+1|0;}return f;}",
        options: HEAP,
        script: b"call f 0\ncall f 10\ncall f 1000",
        printed: b"result 1\nresult 5\nresult 50\nend done\n",
    },
    Row {
        name: "too few replies",
        module: LOOPING,
        options: HEAP,
        script: b"call f\nreply 0\nreply 0\nreply 0",
        printed: b"import g\nimport g\nimport g\nend no-reply g\n",
    },
    Row {
        name: "the same, cut short",
        module: LOOPING,
        options: &["--heap", "4096", "--steps", "2"],
        script: b"call f\nreply 0\nreply 0\nreply 0",
        printed: b"import g\nstill running\n",
    },
    Row {
        name: "an import throws",
        module: LOOPING,
        options: HEAP,
        script: b"call f\nreply 0\nthrow",
        printed: b"import g\nend stopped g\n",
    },
    Row {
        name: "no calls",
        module: SUM,
        options: HEAP,
        script: b"",
        printed: b"end done\n",
    },
];

#[test]
fn sessions_are_seen(rt: HostRuntime) {
    all_print(&rt, rt.alloc(), RUN_ASM, &ROWS);
}

/// Scripts whose first line doesn't fit the module of a sum: an argument is missing, or isn't a number of 32 bits.
static MISFITS: [&[u8]; 2] = [b"call f 1", b"call f 1 4294967296"];

#[test]
fn misfits(rt: HostRuntime) {
    for (number, script) in MISFITS.iter().enumerate() {
        let told = over(rt.alloc(), RUN_ASM, HEAP, SUM, script);
        holds(&rt, number, told.is(4, b"script refused: line 1\n"));
    }
}
