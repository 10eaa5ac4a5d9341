//! Texts that `check-asm` takes or refuses, by the whole program.
use crate::program::{CHECK_ASM, End, all_end};
use crate::texts::USUAL;

static ACCEPTED: [End; 6] = [
    (
        b"function m(){\"use asm\";function f(){return 0;}return f;}",
        b"",
        0,
        b"asm.js functions 1 tables 0 exports 1 foreign 0\n",
    ),
    (
        b"function m(s,f,h){\"use asm\";var H=new s.Int8Array(h);function g(x){x=x|0;return H[x>>0]|0;}return g;}",
        b"",
        0,
        b"asm.js functions 1 tables 0 exports 1 foreign 0\n",
    ),
    (
        b"function m(){\"use asm\";function f(){return -1;}return f;}",
        b"",
        0,
        b"asm.js functions 1 tables 0 exports 1 foreign 0\n",
    ),
    (
        b"function m(){\"use asm\";var x=4294967295;function f(){return 0;}return f;}",
        b"",
        0,
        b"asm.js functions 1 tables 0 exports 1 foreign 0\n",
    ),
    (
        b"function m(){\"use asm\";function a(x){x=x|0;return x+10|0;}function f(e){e=e|0;return t[e&3](1)|0;}var t=[a,a,a,a];return f;}",
        b"",
        0,
        b"asm.js functions 2 tables 1 exports 1 foreign 0\n",
    ),
    (
        USUAL,
        b"",
        0,
        b"asm.js functions 2 tables 0 exports 2 foreign 1\n",
    ),
];

static REFUSED: [End; 9] = [
    (b"", b"", 2, b"asm.js refused: A5 Grammar at 0\n"),
    (
        b"function m(s,f,h){\"use asm\";var H=new s.Int8Array(h);function g(x){x=x|0;return H[x]|0;}return g;}",
        b"",
        2,
        b"asm.js refused: A16 BareByteIndex at 80\n",
    ),
    (
        b"function m(){\"use asm\";function f(){return -0;}return f;}",
        b"",
        2,
        b"asm.js refused: A4 LiteralForm at 43\n",
    ),
    (
        b"function m(){\"use asm\";var x=4294967296;function f(){return 0;}return f;}",
        b"",
        2,
        b"asm.js refused: A12 LiteralRange at 27\n",
    ),
    (
        b"function m(){\"use asm\";function a(x){x=x|0;return x+10|0;}function f(e){e=e|0;return t[e&3](1)|0;}var t=[a,a,a];return f;}",
        b"",
        2,
        b"asm.js refused: A19 TableMask at 85\n",
    ),
    (
        b"function m(){\"use asm\";function a(x){x=x|0;return x+10|0;}function f(e){e=e|0;return t[e&2](1)|0;}var t=[a,a,a];return f;}",
        b"",
        2,
        b"asm.js refused: A18 TableSize at 102\n",
    ),
    (
        b"function m(){\"use asm\";function f(x){x=x|0;var y=0;switch(x|0){case 1:y=y+1|0;default:y=y+100|0;case 5:y=y+10|0;}return y|0;}return f;}",
        b"",
        2,
        b"asm.js refused: A5 Grammar at 96\n",
    ),
    (
        b"function m(s){\"use asm\";var k=s.Math.floor;function f(x){x=x|0;return k(x)|0;}return f;}",
        b"",
        2,
        b"asm.js refused: A13 OutsideInteger at 70\n",
    ),
    (
        b"function m(){\"use asm\";function f(a,b){a=a|0;b=b|0;return a*b|0;}return f;}",
        b"",
        2,
        b"asm.js refused: A14 Operand at 59\n",
    ),
];

#[test]
fn texts_are_accepted(rt: HostRuntime) {
    all_end(&rt, rt.alloc(), CHECK_ASM, &ACCEPTED);
}

#[test]
fn texts_are_refused(rt: HostRuntime) {
    all_end(&rt, rt.alloc(), CHECK_ASM, &REFUSED);
}
