//! Texts of asm.js.

/// It exports `f`, a sum.
pub(crate) const SUM: &[u8] =
    b"function m(){\"use asm\";function f(a,b){a=a|0;b=b|0;return a+b|0;}return f;}";

/// It exports `f`, which calls the import `g` again and again.
pub(crate) const LOOPING: &[u8] =
    b"function m(s,e){\"use asm\";var g=e.g;function f(){while(1)g();}return f;}";

/// A module as a compiler of C writes it.
pub(crate) const USUAL: &[u8] = b"function asm(global,env,buffer){
'use asm';
var HEAP8=new global.Int8Array(buffer);
var HEAP32=new global.Int32Array(buffer);
var HEAPF64=new global.Float64Array(buffer);
var STACKTOP=env.STACKTOP|0;
var tempInt=0,tempDouble=0.0,nan=global.NaN,inf=global.Infinity;
var Math_floor=global.Math.floor;
var Math_imul=global.Math.imul;
var abort=env.abort;
function stackAlloc(size){
size=size|0;
var ret=0;
ret=STACKTOP;
STACKTOP=STACKTOP+size|0;
STACKTOP=STACKTOP+15&-16;
return ret|0;
}
function _put(p,v){p=p|0;v=v|0;HEAP32[p>>2]=Math_imul(v,3)|0;HEAP8[p+4>>0]=v;if((v|0)<0)abort(v|0);return HEAP8[p>>0]|0;}
return {stackAlloc:stackAlloc,_put:_put};
}";
