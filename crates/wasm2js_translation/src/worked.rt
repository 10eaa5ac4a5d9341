//! Worked code and sessions. Each function does nothing, and its contract is what the check computes of small modules.
ghost use Rattle.std.specs.Prelude.{◌≡◌, ◌∷◌, ◌++◌, [], pos, negsuc, None, Some, codes};
ghost use Rattle.sem_words.specs.declared.word.Bin.TheVariants.{Shl, ShrS, ShrU, Rotl, Rotr};
ghost use Rattle.sem_words.specs.declared.word.Word.TheVariants.{W32};
ghost use Rattle.session_lang.specs.Observation.{done, stopped, running, ended, call_returned, call_gave, import_called};
ghost use Rattle.wasm_lang.specs.Instructions.{block, loop, if_block, else_mark, plain, drop_operand};
ghost use Rattle.wasm2js_translation.specs.Pieces.{loading, get, set, tee, summing, rounding_down, storing, choosing, adding, turning_by, of_the_argument, two_more, sum_of_two, leave, leaving_a_block, leaving_with_zero, tabled, listing, asking_all, passing};
ghost use Rattle.wasm2js_translation.specs.Programs.{adding_shape, adding_script, no_shape, starting, starting_script, asking, asking_shape, asking_script, copying, copying_script, narrow, narrow_script, dividing, by_zero_script, overflow_script, wide, wide_shape, wide_script};
ghost use Rattle.wasm2js_translation.specs.Sessions.{variables, variables_shape, variables_script, turning, turning_script, branching, branching_script, trapping, trapping_script, calling, calling_shapes, calling_script, entry_script, entry_shape, remembering, memory_shape, memory_script};
ghost use Rattle.wasm2js_translation.specs.Worked.{text_of, helper_names, tables_of, variables_of, exports_of, target_seen, events_at, first_bytes, IsAlike};

/// The four bytes from 3 past the address lie in a page where the address is at most 65529; they are
/// read as a word where its place is a multiple of four.
pub fn a_guarded_load()
    ensures { text_of loading (codes "f0") ≡ codes "function f0(x0){x0=x0|0;var s0=0;if(x0>>>0>65529)$trap(2);if(x0+3&3)s0=$load32(x0+3|0)|0;else s0=$w[x0+3>>2]|0;return s0|0;}" }
{}

/// The second address is in the page since the first one is; the third one is so by its mask, and by its
/// shift a multiple of four.
pub fn needless_tests()
    ensures { text_of summing (codes "f0") ≡ codes "function f0(x0,x1){x0=x0|0;x1=x1|0;var s0=0,s1=0,s2=0;if(x0>>>0>65524)$trap(2);if(x0&3)s0=$load32(x0+8|0)|0;else s0=$w[x0+8>>2]|0;if(x0&3)s1=$load32(x0+4|0)|0;else s1=$w[x0+4>>2]|0;s0=s0+s1|0;s1=x1&4095;s1=s1<<2;s1=$w[s1+16>>2]|0;return s0+s1|0;}" }
{}

/// What is known of a local goes into a block and into the first arm of an `if`, where it is known that
/// the place is a multiple of four; not into the second arm, nor into a loop.
pub fn known_inside()
    ensures in_a_block { text_of (rounding_down (block None ∷ [])) (codes "f0") ≡ codes "function f0(x0){x0=x0|0;var s0=0,s1=0;x0=x0&-4;L0:{if(x0>>>0>65532)$trap(2);s0=$w[x0>>2]|0;x0=s0;}return x0|0;}" }
    ensures in_an_arm { text_of (rounding_down (get 0 ∷ if_block None ∷ [])) (codes "f0") ≡ codes "function f0(x0){x0=x0|0;var s0=0,s1=0;x0=x0&-4;L0:if(x0|0){if(x0>>>0>65532)$trap(2);s0=$w[x0>>2]|0;x0=s0;}return x0|0;}" }
    ensures in_the_other_arm { text_of (rounding_down (get 0 ∷ if_block None ∷ else_mark ∷ [])) (codes "f0") ≡ codes "function f0(x0){x0=x0|0;var s0=0,s1=0;x0=x0&-4;L0:if(x0|0){}else{if(x0>>>0>65532)$trap(2);if(x0&3)s0=$load32(x0)|0;else s0=$w[x0>>2]|0;x0=s0;}return x0|0;}" }
    ensures in_a_loop { text_of (rounding_down (loop None ∷ [])) (codes "f0") ≡ codes "function f0(x0){x0=x0|0;var s0=0,s1=0;x0=x0&-4;L0:while(1){if(x0>>>0>65532)$trap(2);if(x0&3)s0=$load32(x0)|0;else s0=$w[x0>>2]|0;x0=s0;break;}return x0|0;}" }
{}

/// A sum that comes next into a local is put there at once, and is the operand's word then: where the local's
/// old word still waits, that is written before. What comes to anything else next is written first, and a word
/// that is dropped never is.
pub fn words_put_at_once()
    ensures set { text_of (of_the_argument (two_more ++ set 0 ∷ get 0 ∷ [])) (codes "f0") ≡ codes "function f0(x0){x0=x0|0;var s0=0,s1=0;x0=x0+2|0;return x0|0;}" }
    ensures kept_too { text_of (of_the_argument (two_more ++ tee 0 ∷ two_more ++ sum_of_two ∷ [])) (codes "f0") ≡ codes "function f0(x0){x0=x0|0;var s0=0,s1=0,s2=0;x0=x0+2|0;s1=x0+2|0;return x0+s1|0;}" }
    ensures after_the_old_word { text_of (of_the_argument (get 0 ∷ two_more ++ set 0 ∷ [])) (codes "f0") ≡ codes "function f0(x0){x0=x0|0;var s0=0,s1=0,s2=0;s0=x0;x0=x0+2|0;return s0|0;}" }
    ensures not_next { text_of (of_the_argument (two_more ++ two_more ++ sum_of_two ∷ [])) (codes "f0") ≡ codes "function f0(x0){x0=x0|0;var s0=0,s1=0,s2=0;s0=x0+2|0;s1=x0+2|0;return s0+s1|0;}" }
    ensures dropped { text_of (of_the_argument (two_more ++ plain drop_operand ∷ get 0 ∷ [])) (codes "f0") ≡ codes "function f0(x0){x0=x0|0;var s0=0,s1=0;return x0|0;}" }
{}

/// A condition stands in the branch that asks for it, and a result in its return, also where the function ends;
/// what waits beside a condition is written before it.
pub fn words_read_where_asked()
    ensures condition { text_of (of_the_argument (leaving_a_block ++ get 0 ∷ [])) (codes "f0") ≡ codes "function f0(x0){x0=x0|0;var s0=0,s1=0;L0:{if(x0>>>0<5)break L0;x0=1;}return x0|0;}" }
    ensures beside { text_of (of_the_argument leaving_with_zero) (codes "f0") ≡ codes "function f0(x0){x0=x0|0;var s0=0,s1=0;s0=x0;if((x0|0)==0)return s0|0;return s0|0;}" }
    ensures result { text_of (of_the_argument (two_more ++ leave ∷ [])) (codes "f0") ≡ codes "function f0(x0){x0=x0|0;var s0=0,s1=0;return x0+2|0;return s0|0;}" }
{}

/// Both words of a store of 64 bits are written after one test of all eight bytes.
pub fn an_unaligned_store()
    ensures { text_of storing (codes "f0") ≡ codes "function f0(x0,x1,X1){x0=x0|0;x1=x1|0;X1=X1|0;var s0=0,S0=0,s1=0,S1=0;if(x0>>>0>65528)$trap(2);if(x0&3)$store64(x0,x1,X1);else{$w[x0>>2]=x1;$w[x0+4>>2]=X1;}}" }
{}

/// A branch by an index, to the inner block, whose result stands where it has to, and to the outer one,
/// to which it is moved.
pub fn a_branch_by_an_index()
    ensures { text_of choosing (codes "f0") ≡ codes "function f0(x0){x0=x0|0;var s0=0,s1=0,s2=0;L0:{s0=7;L1:{s1=10;s2=x0;switch(s2|0){case 0:break L1;case 1:s0=s1;break L0;default:break L1;}}s0=20;}return s0|0;}" }
{}

/// A sum of words of 64 bits with its carry; the high word of the result is left in `$h`.
pub fn a_wide_sum()
    ensures { text_of adding (codes "f0") ≡ codes "function f0(x0,X0,x1,X1){x0=x0|0;X0=X0|0;x1=x1|0;X1=X1|0;var s0=0,S0=0,s1=0,S1=0;s0=x0+x1|0;S0=X0+X1+(s0>>>0<x1>>>0)|0;$h=S0;return s0|0;}" }
{}

/// Shifts and rotations by a constant, which counts modulo 64: the count's low variable holds the low
/// word of a rotation where that cannot wait.
pub fn turns_by_a_constant()
    ensures left { text_of (turning_by Shl 5) (codes "f0") ≡ codes "function f0(x0,X0){x0=x0|0;X0=X0|0;var s0=0,S0=0,s1=0,S1=0;S0=X0<<5|x0>>>27;s0=x0<<5;$h=S0;return s0|0;}" }
    ensures far_left { text_of (turning_by Shl 40) (codes "f0") ≡ codes "function f0(x0,X0){x0=x0|0;X0=X0|0;var s0=0,S0=0,s1=0,S1=0;S0=x0<<8;s0=0;$h=S0;return s0|0;}" }
    ensures signed { text_of (turning_by ShrS 69) (codes "f0") ≡ codes "function f0(x0,X0){x0=x0|0;X0=X0|0;var s0=0,S0=0,s1=0,S1=0;s0=X0<<27|x0>>>5;S0=X0>>5;$h=S0;return s0|0;}" }
    ensures far_signed { text_of (turning_by ShrS 32) (codes "f0") ≡ codes "function f0(x0,X0){x0=x0|0;X0=X0|0;var s0=0,S0=0,s1=0,S1=0;s0=X0;S0=X0>>31;$h=S0;return s0|0;}" }
    ensures far_right { text_of (turning_by ShrU 63) (codes "f0") ≡ codes "function f0(x0,X0){x0=x0|0;X0=X0|0;var s0=0,S0=0,s1=0,S1=0;s0=X0>>>31;S0=0;$h=S0;return s0|0;}" }
    ensures round_left { text_of (turning_by Rotl 5) (codes "f0") ≡ codes "function f0(x0,X0){x0=x0|0;X0=X0|0;var s0=0,S0=0,s1=0,S1=0;s0=x0<<5|X0>>>27;S0=X0<<5|x0>>>27;$h=S0;return s0|0;}" }
    ensures round_right { text_of (turning_by Rotr 5) (codes "f0") ≡ codes "function f0(x0,X0){x0=x0|0;X0=X0|0;var s0=0,S0=0,s1=0,S1=0;s0=X0<<27|x0>>>5;S0=x0<<27|X0>>>5;$h=S0;return s0|0;}" }
    ensures by_none { text_of (turning_by Rotl 64) (codes "f0") ≡ codes "function f0(x0,X0){x0=x0|0;X0=X0|0;var s0=0,S0=0,s1=0,S1=0;s0=x0;S0=X0;$h=S0;return s0|0;}" }
{}

/// What a call takes stands in it; what waits below is written before.
pub fn a_call()
    ensures { text_of passing (codes "f1") ≡ codes "function f1(x0){x0=x0|0;var s0=0,s1=0,s2=0,s3=0,s4=0;s0=9;s1=f0(x0,5,x0+2|0)|0;return s0+s1|0;}" }
{}

/// Calls of an entry: types of one form share a table, an entry of another type and one that isn't there
/// have functions that trap.
pub fn a_call_of_an_entry()
    ensures wide { text_of tabled (codes "f2") ≡ codes "function f2(x0){x0=x0|0;var s0=0,S0=0,s1=0;s0=5;s1=x0;if(s1>>>0>3)$trap(5);s0=t0[s1&3](s0)|0;S0=$h;$h=S0;return s0|0;}" }
    ensures no_result { text_of tabled (codes "f3") ≡ codes "function f3(x0){x0=x0|0;var s0=0,s1=0;s0=6;s1=x0;if(s1>>>0>3)$trap(5);t1[s1&3](s0);}" }
    ensures tables { tables_of tabled ≡ codes "var t0=[f0,o3,e3,e3];\nvar t1=[o2,f1,e2,e2];\n" }
    ensures no_entry { text_of tabled (codes "e3") ≡ codes "function e3(x0){x0=x0|0;$trap(5);return 0;}" }
    ensures other_entry { text_of tabled (codes "o2") ≡ codes "function o2(x0){x0=x0|0;$trap(6);}" }
{}

/// Helpers: words of 64 bits as two words, a quotient with its traps, a load at any place, a copy and a
/// fill of a page.
pub fn helpers()
    ensures shift { text_of asking_all (codes "$shl") ≡ codes "function $shl(x0,x1,x2){x0=x0|0;x1=x1|0;x2=x2|0;if(x2&32){$q=x0<<x2;return 0|0;}$q=(x1<<x2)+(x0>>>1>>>~x2)|0;return x0<<x2|0;}" }
    ensures rotation { text_of asking_all (codes "$rotl") ≡ codes "function $rotl(x0,x1,x2){x0=x0|0;x1=x1|0;x2=x2|0;var s0=0;if(x2&32){s0=x0;x0=x1;x1=s0;}$q=(x1<<x2)+(x0>>>1>>>~x2)|0;return(x0<<x2)+(x1>>>1>>>~x2)|0;}" }
    ensures zeros { text_of asking_all (codes "$ctz") ≡ codes "function $ctz(x0,x1){x0=x0|0;x1=x1|0;if(x0){return 32-$clz32(~x0&x0-1)|0;}return 64-$clz32(~x1&x1-1)|0;}" }
    ensures bits { text_of asking_all (codes "$pop") ≡ codes "function $pop(x0){x0=x0|0;var s0=0;while(x0){s0=s0+(x0&1)|0;x0=x0>>>1;}return s0|0;}" }
    ensures quotient { text_of asking_all (codes "$divs") ≡ codes "function $divs(x0,x1){x0=x0|0;x1=x1|0;if((x1|0)==0)$trap(3);if((x0|0)==-2147483648&(x1|0)==-1)$trap(4);return(x0|0)/(x1|0)|0;}" }
    ensures load { text_of asking_all (codes "$load64") ≡ codes "function $load64(x0){x0=x0|0;$q=($u8[x0+4>>0]|0)+($u8[x0+5>>0]<<8)+($u8[x0+6>>0]<<16)+($u8[x0+7>>0]<<24)|0;return($u8[x0>>0]|0)+($u8[x0+1>>0]<<8)+($u8[x0+2>>0]<<16)+($u8[x0+3>>0]<<24)|0;}" }
    ensures copy { text_of asking_all (codes "$copy") ≡ codes "function $copy(x0,x1,x2){x0=x0|0;x1=x1|0;x2=x2|0;var s0=0;if(x2>>>0>65536)$trap(2);if(x0>>>0>65536-x2>>>0)$trap(2);if(x1>>>0>65536-x2>>>0)$trap(2);if(x0>>>0<=x1>>>0){if(((x0^x1)&3|(x2|0)<4)==0){while((x0+s0&3)!=0){$u8[x0+s0>>0]=$u8[x1+s0>>0]|0;s0=s0+1|0;}while((s0|0)<=(x2-32|0)){$w[x0+s0>>2]=$w[x1+s0>>2]|0;$w[x0+s0+4>>2]=$w[x1+s0+4>>2]|0;$w[x0+s0+8>>2]=$w[x1+s0+8>>2]|0;$w[x0+s0+12>>2]=$w[x1+s0+12>>2]|0;$w[x0+s0+16>>2]=$w[x1+s0+16>>2]|0;$w[x0+s0+20>>2]=$w[x1+s0+20>>2]|0;$w[x0+s0+24>>2]=$w[x1+s0+24>>2]|0;$w[x0+s0+28>>2]=$w[x1+s0+28>>2]|0;s0=s0+32|0;}while((s0|0)<=(x2-4|0)){$w[x0+s0>>2]=$w[x1+s0>>2]|0;s0=s0+4|0;}}while((s0|0)<(x2|0)){$u8[x0+s0>>0]=$u8[x1+s0>>0]|0;s0=s0+1|0;}}else{if(((x0^x1)&3|(x2|0)<4)==0){while((x0+x2&3)!=0){x2=x2-1|0;$u8[x0+x2>>0]=$u8[x1+x2>>0]|0;}while((x2|0)>31){x2=x2-32|0;$w[x0+x2+28>>2]=$w[x1+x2+28>>2]|0;$w[x0+x2+24>>2]=$w[x1+x2+24>>2]|0;$w[x0+x2+20>>2]=$w[x1+x2+20>>2]|0;$w[x0+x2+16>>2]=$w[x1+x2+16>>2]|0;$w[x0+x2+12>>2]=$w[x1+x2+12>>2]|0;$w[x0+x2+8>>2]=$w[x1+x2+8>>2]|0;$w[x0+x2+4>>2]=$w[x1+x2+4>>2]|0;$w[x0+x2>>2]=$w[x1+x2>>2]|0;}while((x2|0)>3){x2=x2-4|0;$w[x0+x2>>2]=$w[x1+x2>>2]|0;}}while((x2|0)>0){x2=x2-1|0;$u8[x0+x2>>0]=$u8[x1+x2>>0]|0;}}}" }
    ensures fill { text_of asking_all (codes "$fill") ≡ codes "function $fill(x0,x1,x2){x0=x0|0;x1=x1|0;x2=x2|0;var s0=0,s1=0;if(x2>>>0>65536)$trap(2);if(x0>>>0>65536-x2>>>0)$trap(2);if((x2|0)>3){s1=$imul(x1&255,16843009);while((x0+s0&3)!=0){$u8[x0+s0>>0]=x1;s0=s0+1|0;}while((s0|0)<=(x2-32|0)){$w[x0+s0>>2]=s1;$w[x0+s0+4>>2]=s1;$w[x0+s0+8>>2]=s1;$w[x0+s0+12>>2]=s1;$w[x0+s0+16>>2]=s1;$w[x0+s0+20>>2]=s1;$w[x0+s0+24>>2]=s1;$w[x0+s0+28>>2]=s1;s0=s0+32|0;}while((s0|0)<=(x2-4|0)){$w[x0+s0>>2]=s1;s0=s0+4|0;}}while((s0|0)<(x2|0)){$u8[x0+s0>>0]=x1;s0=s0+1|0;}}" }
{}

/// Which helpers a module has: only those that its code and its segments ask for.
pub fn helpers_asked()
    ensures none { helper_names choosing ≡ [] }
    ensures wide { helper_names adding ≡ codes "$shl" ∷ codes "$shrs" ∷ codes "$shru" ∷ codes "$rotl" ∷ codes "$clz" ∷ codes "$ctz" ∷ codes "$pop" ∷ [] }
    ensures load { helper_names loading ≡ codes "$load32" ∷ [] }
    ensures store { helper_names storing ≡ codes "$store64" ∷ [] }
    ensures data { helper_names listing ≡ codes "$put" ∷ codes "$zero" ∷ [] }
{}

/// The helper that writes sixteen words of a long segment.
pub fn a_long_segment()
    ensures { text_of listing (codes "$put") ≡ codes "function $put(x0,x1,x2,x3,x4,x5,x6,x7,x8,x9,x10,x11,x12,x13,x14,x15,x16){x0=x0|0;x1=x1|0;x2=x2|0;x3=x3|0;x4=x4|0;x5=x5|0;x6=x6|0;x7=x7|0;x8=x8|0;x9=x9|0;x10=x10|0;x11=x11|0;x12=x12|0;x13=x13|0;x14=x14|0;x15=x15|0;x16=x16|0;$w[x0>>2]=x1;$w[x0+4>>2]=x2;$w[x0+8>>2]=x3;$w[x0+12>>2]=x4;$w[x0+16>>2]=x5;$w[x0+20>>2]=x6;$w[x0+24>>2]=x7;$w[x0+28>>2]=x8;$w[x0+32>>2]=x9;$w[x0+36>>2]=x10;$w[x0+40>>2]=x11;$w[x0+44>>2]=x12;$w[x0+48>>2]=x13;$w[x0+52>>2]=x14;$w[x0+56>>2]=x15;$w[x0+60>>2]=x16;}" }
{}

/// The declarations of a module with imports, globals of both types and no memory, and of one with a
/// memory; its segment, by words where it can be; the function that calls an import; exports.
pub fn declarations()
    ensures variables { variables_of variables ≡ codes "var $imul=stdlib.Math.imul;\nvar $clz32=stdlib.Math.clz32;\nvar $trap=foreign.$trap;\nvar $high=foreign.$high;\nvar $q=0;\nvar $h=0;\nvar i0=foreign.p;\nvar i1=foreign.q;\nvar g0=foreign.base|0;\nvar g1=foreign.base|0;\nvar g2=-2147483648;\nvar G2=256;\n" }
    ensures views { variables_of loading ≡ codes "var $u8=new stdlib.Uint8Array(heap);\nvar $i8=new stdlib.Int8Array(heap);\nvar $w=new stdlib.Int32Array(heap);\nvar $imul=stdlib.Math.imul;\nvar $clz32=stdlib.Math.clz32;\nvar $trap=foreign.$trap;\nvar $high=foreign.$high;\nvar $q=0;\nvar $h=0;\n" }
    ensures segment { text_of remembering (codes "$init") ≡ codes "function $init(){$u8[6]=1;$u8[7]=2;$w[2]=100992003;$u8[12]=255;$u8[13]=8;}" }
    ensures start { text_of starting (codes "$init") ≡ codes "function $init(){f1();}" }
    ensures narrow_import { text_of starting (codes "f0") ≡ codes "function f0(x0){x0=x0|0;i0(x0|0);}" }
    ensures wide_import { text_of asking (codes "f0") ≡ codes "function f0(){var s0=0;s0=i0()|0;$h=$high()|0;return s0|0;}" }
    ensures exports { exports_of calling ≡ codes "return{$init:$init,$hi:$hi,f:f1,$x7020616761696e:f0};" }
{}

/// 4294967295 + 4294967295 is 8589934590. `$init`, the function and `$hi` take a unit each, and the high
/// word is shown by the last one.
pub fn a_session_of_a_wide_sum()
    ensures alike { IsAlike adding adding_shape adding_script 100 100 }
    ensures at_0 { target_seen adding adding_shape adding_script 0 ≡ Some (running []) }
    ensures at_1 { target_seen adding adding_shape adding_script 1 ≡ Some (running (call_returned ∷ [])) }
    ensures at_2 { target_seen adding adding_shape adding_script 2 ≡ Some (running (call_returned ∷ call_gave (W32 4294967294) ∷ [])) }
    ensures at_3 { target_seen adding adding_shape adding_script 3 ≡ Some (ended (call_returned ∷ call_gave (W32 4294967294) ∷ call_gave (W32 1) ∷ []) done []) }
{}

/// A start function that calls an import, and then traps: all of it in the call of `$init`.
pub fn a_session_of_a_start_function()
    ensures alike { IsAlike starting no_shape starting_script 100 100 }
    ensures at_2 { target_seen starting no_shape starting_script 2 ≡ Some (running []) }
    ensures at_3 { target_seen starting no_shape starting_script 3 ≡ Some (ended (import_called (codes "p") (W32 9 ∷ []) ∷ []) (stopped (codes "$trap") (W32 1 ∷ [])) []) }
{}

/// Operators on words of 32 bits; and the quotients that trap.
pub fn narrow_operators()
    ensures all { IsAlike narrow no_shape narrow_script 2000 1000 }
    ensures by_zero { IsAlike dividing no_shape by_zero_script 100 100 }
    ensures overflow { IsAlike dividing no_shape overflow_script 100 100 }
{}

/// Operators on words of 64 bits.
pub fn wide_operators()
    ensures { IsAlike wide wide_shape wide_script 2000 2000 }
{}

/// Locals, globals and choices of both types.
pub fn variables_of_both_types()
    ensures { IsAlike variables variables_shape variables_script 200 200 }
{}

/// Loops, ifs, branches by an index to blocks and to a loop, and branches out of the function.
pub fn branches()
    ensures turns { IsAlike turning no_shape turning_script 1000 1000 }
    ensures many_labels { IsAlike branching no_shape branching_script 200 200 }
{}

/// Calls of a function and of an import with words of both types; the import is exported under a name
/// that asm.js can't spell.
pub fn calls()
    ensures { IsAlike calling calling_shapes calling_script 300 300 }
{}

/// A module that imports `$trap` and `$high` itself.
pub fn own_traps()
    ensures { IsAlike trapping no_shape trapping_script 100 100 }
{}

/// Entries of a table: one of the right type, one of another type, one that isn't there, one past the
/// table, and one past all tables.
pub fn entries()
    ensures right { IsAlike tabled entry_shape (entry_script (pos 0)) 100 100 }
    ensures other { IsAlike tabled entry_shape (entry_script (pos 1)) 100 100 }
    ensures empty { IsAlike tabled entry_shape (entry_script (pos 2)) 100 100 }
    ensures past { IsAlike tabled entry_shape (entry_script (pos 3)) 100 100 }
    ensures far { IsAlike tabled entry_shape (entry_script (negsuc 0)) 100 100 }
{}

/// A reply of 64 bits whose high word is asked for, and the bytes that it writes: 5 * 2^32 + 7, and -56
/// of two bytes. What the import does itself takes no unit.
pub fn a_reply_with_byte_writes()
    ensures alike { IsAlike asking asking_shape asking_script 100 100 }
    ensures at_2 { events_at asking asking_shape asking_script 2 ≡ Some (call_returned ∷ []) }
    ensures at_3 { events_at asking asking_shape asking_script 3 ≡ Some (call_returned ∷ import_called (codes "p") [] ∷ call_gave (W32 4294967247) ∷ []) }
    ensures at_4 { events_at asking asking_shape asking_script 4 ≡ Some (call_returned ∷ import_called (codes "p") [] ∷ call_gave (W32 4294967247) ∷ call_gave (W32 4) ∷ []) }
{}

/// A copy to one byte further takes a unit for each byte, from the last one on, and one more; a copy that
/// passes the end of the memory traps.
pub fn copies()
    ensures alike { IsAlike copying no_shape copying_script 100 100 }
    ensures before_the_last_turn { events_at copying no_shape copying_script 8 ≡ Some (call_returned ∷ []) }
    ensures after_it { events_at copying no_shape copying_script 9 ≡ Some (call_returned ∷ call_returned ∷ []) }
    ensures at_the_end { first_bytes 8 copying no_shape copying_script 11 ≡ Some (1 ∷ 1 ∷ 2 ∷ 3 ∷ 4 ∷ 5 ∷ 0 ∷ 0 ∷ []) }
{}

/// Stores and loads of all forms at places of both kinds, a fill, and a store that passes the end.
pub fn stores_and_loads()
    ensures { IsAlike remembering memory_shape memory_script 500 500 }
{}
