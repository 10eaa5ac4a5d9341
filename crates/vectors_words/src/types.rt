use crate::rows::holds;
use asm_types::*;
use sem_words::{JsOp, JsUnary, JsValue};

fn is_type(found: Option<ValueType>, wanted: ValueType) -> bool {
    match found {
        Some(found) => found == wanted,
        None => false,
    }
}

// Rows of the draft's tables.
#[test]
fn rows_of_the_draft(rt: HostRuntime) {
    let fixnum = ValueType::Fixnum;
    let unsigned = ValueType::Unsigned;
    let quotient = binary_row(JsOp::Div, fixnum, unsigned);
    holds(&rt, 0, is_type(quotient, ValueType::Intish));
    holds(
        &rt,
        1,
        binary_row(JsOp::Div, ValueType::Signed, unsigned).is_none(),
    );
    let inverse = unary_row(JsUnary::BitNot, ValueType::Intish);
    holds(&rt, 2, is_type(inverse, ValueType::Signed));
    holds(&rt, 3, below(fixnum, unsigned));
    holds(&rt, 4, fits(ValueType::Int, JsValue::Bool(true)));
}
