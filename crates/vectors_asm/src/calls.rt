//! Sessions of asm.js, by the whole program.
use crate::program::{CHECK_ASM, End, RUN_ASM, Row, all_end, all_print, over};
use crate::rows::holds;
use crate::texts::{LOOPING, SUM, USUAL};

/// Sessions that end.
pub(crate) static ROWS: [Row; 24] = [
    Row {
        name: "a function without parameters",
        module: b"function m(){\"use asm\";function f(){return 0;}return f;}",
        options: &[],
        script: b"call f",
        printed: b"result 0\nend done\n",
    },
    Row {
        name: "a sum that wraps",
        module: SUM,
        options: &[],
        script: b"call f 2147483647 1",
        printed: b"result -2147483648\nend done\n",
    },
    Row {
        name: "quotients that no machine gives",
        module: b"function m(){\"use asm\";function d(a,b){a=a|0;b=b|0;return (a|0)/(b|0)|0;}return d;}",
        options: &[],
        script: b"call d -2147483648 -1\ncall d 7 0\ncall d -7 2",
        printed: b"result -2147483648\nresult 0\nresult -3\nend done\n",
    },
    Row {
        name: "a truth value in an int",
        module: b"function m(){\"use asm\";function f(a,b){a=a|0;b=b|0;var x=0;x=(a|0)<(b|0);return x+x|0;}return f;}",
        options: &[],
        script: b"call f 1 2",
        printed: b"result 2\nend done\n",
    },
    Row {
        name: "a store past the stated heap",
        module: b"function m(s,f,h){\"use asm\";var H=new s.Int32Array(h);function g(){H[4096>>2]=9;return H[4096>>2]|0;}return g;}",
        options: &["--heap", "4096"],
        script: b"call g",
        printed: b"result 0\nend done\n",
    },
    Row {
        name: "the same store in a longer heap",
        module: b"function m(s,f,h){\"use asm\";var H=new s.Int32Array(h);function g(){H[4096>>2]=9;return H[4096>>2]|0;}return g;}",
        options: &["--heap", "8192"],
        script: b"call g",
        printed: b"result 9\nend done\nheap 4096 09000000000000000000000000000000\n",
    },
    Row {
        name: "three views of one buffer",
        module: b"function m(s,f,h){\"use asm\";var A=new s.Int32Array(h),B=new s.Uint8Array(h),C=new s.Int16Array(h);function a(){A[0]=-2;return B[0]|0;}function c(){return C[1]|0;}return {a:a,c:c};}",
        options: &[],
        script: b"call a\ncall c",
        printed: b"result 254\nresult -1\nend done\nheap 0 feffffff000000000000000000000000\n",
    },
    Row {
        name: "an import of two shapes",
        module: b"function m(s,e){\"use asm\";var f=e.f;function r(){f(1)|0;f(1,2);}return r;}",
        options: &[],
        script: b"call r\nreply 5\nreply 0",
        printed: b"import f 1\nimport f 1 2\nreturned\nend done\n",
    },
    Row {
        name: "a table by its mask",
        module: b"function m(){\"use asm\";function a(x){x=x|0;return x+10|0;}function b(x){x=x|0;return x+20|0;}function c(x){x=x|0;return x+30|0;}function d(x){x=x|0;return x+40|0;}function f(e){e=e|0;return t[e&3](1)|0;}var t=[a,b,c,d];return f;}",
        options: &[],
        script: b"call f -1",
        printed: b"result 41\nend done\n",
    },
    Row {
        name: "a switch that falls through",
        module: b"function m(){\"use asm\";function f(x){x=x|0;var y=0;switch(x|0){case 1:y=y+1|0;case 5:y=y+10|0;default:y=y+100|0;}return y|0;}return f;}",
        options: &[],
        script: b"call f 1\ncall f 5\ncall f 9",
        printed: b"result 111\nresult 110\nresult 100\nend done\n",
    },
    Row {
        name: "replies that run out",
        module: LOOPING,
        options: &[],
        script: b"call f\nreply 0\nreply 0\nreply 0",
        printed: b"import g\nimport g\nimport g\nend no-reply g\n",
    },
    Row {
        name: "an import that throws",
        module: LOOPING,
        options: &[],
        script: b"call f\nreply 0\nthrow",
        printed: b"import g\nend stopped g\n",
    },
    Row {
        name: "a module of usual form",
        module: USUAL,
        options: &[],
        script: b"global STACKTOP 1000\ncall stackAlloc 5\ncall stackAlloc 0\ncall _put 16 -2\nreply 0",
        printed: b"result 1000\nresult 1008\nimport abort -2\nresult -6\nend done\nheap 16 fafffffffe0000000000000000000000\n",
    },
    Row {
        name: "a store in a store",
        module: b"function m(s,f,h){\"use asm\";var H=new s.Int32Array(h);function g(a,b,c){a=a|0;b=b|0;c=c|0;H[a>>2]=H[b>>2]=c;return H[a>>2]|0;}return g;}",
        options: &["--heap", "4096"],
        script: b"call g 0 4 7\ncall g 4096 8 9\ncall g 12 -4 3",
        printed: b"result 7\nresult 0\nresult 3\nend done\nheap 0 07000000070000000900000003000000\n",
    },
    Row {
        name: "turns of labelled loops",
        module: b"function m(){\"use asm\";function f(n){n=n|0;var i=0,j=0,r=0;a:for(;(i|0)<(n|0);i=i+1|0){j=0;do{j=j+1|0;if((j|0)==2)continue a;if((i|0)==3)break a;r=r+j|0;}while((j|0)<5);}return r+(i<<8)|0;}return f;}",
        options: &[],
        script: b"call f 2\ncall f 9",
        printed: b"result 514\nresult 771\nend done\n",
    },
    Row {
        name: "a turn of a loop from inside a switch",
        module: b"function m(){\"use asm\";function f(n){n=n|0;var r=0;while(n){n=n-1|0;switch(n|0){case 3:continue;case 2:r=r+10|0;break;default:r=r+1|0;}r=r+100|0;}return r|0;}return f;}",
        options: &[],
        script: b"call f 5",
        printed: b"result 413\nend done\n",
    },
    Row {
        name: "a switch by a table of labels",
        module: b"function m(){\"use asm\";function f(x){x=x|0;switch(x|0){case -2:return 1;case 0:return 2;case -1:return 3;case 2:return 4;case 1:return 5;}return 6;}return f;}",
        options: &[],
        script: b"call f -2\ncall f -1\ncall f 0\ncall f 1\ncall f 2\ncall f 3\ncall f -3\ncall f -2147483648",
        printed: b"result 1\nresult 3\nresult 2\nresult 5\nresult 4\nresult 6\nresult 6\nresult 6\nend done\n",
    },
    Row {
        name: "operators of the standard library, conditions and commas",
        module: b"function m(s){\"use asm\";var p=s.Math.imul,z=s.Math.clz32;function f(a,b){a=a|0;b=b|0;var c=0;c=(a>>>0)<(b>>>0)?p(a,b)|0:(z(a)|0);return (a=c,~a,!a|0,a+((b|0)%3|0)|0)|0;}return f;}",
        options: &[],
        script: b"call f 3 5\ncall f -1 7\ncall f 16 1",
        printed: b"result 17\nresult 1\nresult 28\nend done\n",
    },
    Row {
        name: "unsigned quotients",
        module: b"function m(){\"use asm\";function f(a,b){a=a|0;b=b|0;return ((a>>>0)/(b>>>0)>>>0)+((a>>>0)%(b>>>0)|0)|0;}return f;}",
        options: &[],
        script: b"call f -1 10\ncall f 7 0",
        printed: b"result 429496734\nresult 0\nend done\n",
    },
    Row {
        name: "calls by two tables, one inside the other",
        module: b"function m(s,e){\"use asm\";var g=e.g;function a(x){x=x|0;return x+1|0;}function b(x){x=x|0;g(x|0);return x+2|0;}function n(){}function f(i){i=i|0;u[i&1]();return t[i&1](t[i>>1&1](g(i|0)|0)|0)|0;}var u=[n,n],t=[a,b];return f;}",
        options: &[],
        script: b"call f 2\ncall f 1\nreply 40\nreply 0\nreply 50\nreply 0",
        printed: b"import g 2\nimport g 40\nresult 43\nimport g 1\nimport g 51\nresult 53\nend done\n",
    },
    Row {
        name: "variables of the module",
        module: b"function m(s,e){\"use asm\";var a=7,b=e.b|0,c=-1;function f(){a=a+b|0;c=a*3|0;return c|0;}function g(){var a=100,d=5;a=a+d|0;return a+c|0;}return {f:f,g:g};}",
        options: &[],
        script: b"global b 5\ncall f\ncall g\ncall f",
        printed: b"result 36\nresult 141\nresult 51\nend done\n",
    },
    Row {
        name: "foreign members in another order than their lines",
        module: b"function m(s,e){\"use asm\";var a=e.a|0,b=e.b|0,c=e.c|0,d=e.a|0;function f(){return (a*1000|0)+(b*100|0)+(c*10|0)+d|0;}return f;}",
        options: &[],
        script: b"global c 3\nglobal a 1\nglobal b -2\ncall f",
        printed: b"result 831\nend done\n",
    },
    Row {
        name: "an empty script",
        module: SUM,
        options: &[],
        script: b"",
        printed: b"end done\n",
    },
    Row {
        name: "bytes of the script in the heap",
        module: b"function m(s,f,h){\"use asm\";var H=new s.Uint8Array(h);function g(i){i=i|0;return H[i>>0]|0;}return g;}",
        options: &[],
        script: b"# the last byte of the heap\nheap 65535 fF\r\ncall\tg 65535\n",
        printed: b"result 255\nend done\nheap 65520 000000000000000000000000000000ff\n",
    },
];

#[test]
fn sessions_are_printed(rt: HostRuntime) {
    all_print(&rt, rt.alloc(), RUN_ASM, &ROWS);
}

static OUT_OF_UNITS: [Row; 1] = [Row {
    name: "units that run out",
    module: LOOPING,
    options: &["--steps", "2"],
    script: b"call f\nreply 0\nreply 0\nreply 0",
    printed: b"import g\nstill running\n",
}];

#[test]
fn units_run_out(rt: HostRuntime) {
    all_print(&rt, rt.alloc(), RUN_ASM, &OUT_OF_UNITS);
}

static REFUSED: [End; 6] = [
    (SUM, b"call f 1", 4, b"script refused: line 1\n"),
    (SUM, b"call f 1 4294967296", 4, b"script refused: line 1\n"),
    (
        SUM,
        b"call f 1 2\n\nthrow now",
        4,
        b"script refused: line 3\n",
    ),
    (SUM, b"call f 1\nthrow now", 4, b"script refused: line 2\n"),
    (USUAL, b"call stackAlloc 5", 4, b"script refused: line 0\n"),
    (
        USUAL,
        b"global STACKTOP 1000\nglobal STACKTOP 1",
        4,
        b"script refused: line 2\n",
    ),
];

#[test]
fn scripts_are_refused(rt: HostRuntime) {
    all_end(&rt, rt.alloc(), RUN_ASM, &REFUSED);
}

static SHOWN: [End; 1] = [(
    b"function m(){\"use asm\";function f(){return 0;}return f;}",
    b"",
    0,
    b"function m(){\"use asm\";\nfunction f(){return 0;}\nreturn f;}\n",
)];

#[test]
fn a_module_is_shown(rt: HostRuntime) {
    all_end(&rt, rt.alloc(), &["show", "m"], &SHOWN);
}

#[test]
fn a_long_text_is_refused(rt: HostRuntime) {
    let alloc = rt.alloc();
    match vec![in alloc; b' '; 16_777_217] {
        Ok(spaces) => {
            let told = over(alloc, CHECK_ASM, &[], &spaces, b"");
            holds(&rt, 0, told.is(8, b"too large: m\n"));
        }
        Err(_) => holds(&rt, 1, false),
    }
}
