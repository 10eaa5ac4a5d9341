use crate::rows::holds;
use sem_words::*;
use std::alloc::Global;

fn text_is(alloc: Global, bytes: &[u8]) -> bool {
    match Text::from_bytes(alloc, bytes) {
        Ok(text) => text.as_bytes() == bytes,
        Err(_) => false,
    }
}

fn are_items(list: &List<u32>) -> bool {
    list.len() == 2 && matches!(list.get(1), Some(9)) && list.get(2).is_none()
}

#[test]
fn texts_and_lists_hold_what_they_are_given(rt: HostRuntime) {
    holds(&rt, 0, text_is(rt.alloc(), b"asm"));
    let mut list = List::new(rt.alloc());
    holds(&rt, 1, list.is_empty());
    holds(&rt, 2, list.push(7u32).is_ok());
    holds(&rt, 3, list.push(9u32).is_ok());
    holds(&rt, 4, are_items(&list));
    holds(&rt, 5, list.into_vec().as_slice() == [7, 9].as_slice());
}

// Rows of the tests that come with the WebAssembly specification, i32.wast and i64.wast.
static NARROW: [(Bin, u32, u32, Result<u32, TrapKind>); 7] = [
    (Bin::DivS, 0x8000_0000, 2, Ok(0xc000_0000)),
    (Bin::DivS, 0x8000_0000, 0xffff_ffff, Err(TrapKind::Overflow)),
    (Bin::RemS, 0x8000_0000, 0xffff_ffff, Ok(0)),
    (Bin::RemU, 0x8ff0_0ff0, 0x1_0001, Ok(0x8001)),
    (Bin::ShrS, 0x8000_0000, 33, Ok(0xc000_0000)),
    (Bin::Rotl, 0xabcd_9876, 1, Ok(0x579b_30ed)),
    (Bin::Rotr, 0xb0c1_d2e3, 0xff05, Ok(0x1d86_0e97)),
];

static WIDE: [(Bin, u64, u64, u64); 3] = [
    (
        Bin::Mul,
        0x0123_4567_89ab_cdef,
        0xfedc_ba98_7654_3210,
        0x2236_d88f_e561_8cf0,
    ),
    (Bin::DivU, 0x8ff0_0ff0_0ff0_0ff0, 0x1_0000_0001, 0x8ff0_0fef),
    (Bin::Rotl, 0xabd1_ea98_1098_7654, 1, 0x57a3_d530_2130_eca9),
];

fn is_narrow(op: Bin, a: u32, b: u32, wanted: Result<u32, TrapKind>) -> bool {
    match (bin32(op, a, b), wanted) {
        (Ok(word), Ok(wanted)) => word == wanted,
        (Err(trap), Err(wanted)) => trap == wanted,
        _ => false,
    }
}

fn is_wide(op: Bin, a: u64, b: u64, wanted: u64) -> bool {
    match bin64(op, a, b) {
        Ok(word) => word == wanted,
        Err(_) => false,
    }
}

#[test]
fn words_agree_with_the_specification_tests(rt: HostRuntime) {
    for (number, (op, a, b, wanted)) in NARROW.iter().enumerate() {
        holds(&rt, number, is_narrow(*op, *a, *b, *wanted));
    }
    // these rows count from 10 on
    for (number, (op, a, b, wanted)) in WIDE.iter().enumerate() {
        holds(
            &rt,
            number.saturating_add(10),
            is_wide(*op, *a, *b, *wanted),
        );
    }
}

fn is_value(found: Option<JsValue>, wanted: JsValue) -> bool {
    match found {
        Some(found) => found == wanted,
        None => false,
    }
}

// As printed by a JavaScript engine. No table holds them: an operator wants to know of its operands that they are values.
#[test]
fn operators_agree_with_an_engine(rt: HostRuntime) {
    let least = JsValue::Whole(-2147483648);
    let minus_one = JsValue::Whole(-1);
    let rest = js_binary(JsOp::Rem, least, minus_one);
    holds(&rt, 0, is_value(rest, JsValue::NegZero));
    let quotient = js_binary(JsOp::Div, least, minus_one);
    holds(&rt, 1, is_value(quotient, JsValue::Whole(2147483648)));
    let shifted = js_binary(JsOp::Shr, minus_one, JsValue::Undef);
    holds(&rt, 2, is_value(shifted, JsValue::Whole(4294967295)));
    let negative = js_unary(JsUnary::Neg, JsValue::Bool(false));
    holds(&rt, 3, is_value(negative, JsValue::NegZero));
    let product = js_imul(JsValue::Whole(123456789), JsValue::Whole(987654321));
    holds(&rt, 4, is_value(product, JsValue::Whole(-67153019)));
    holds(&rt, 5, to_int32(JsValue::Frac(-7, 2)) == -3);
}
