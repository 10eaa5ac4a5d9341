//! JavaScript values and the names of JavaScript's operators.

/// A JavaScript value, as far as integer code makes one (ECMA-262 6th edition, section 6.1).
///
/// A value keeps these rules, which `specs/JsValues.antt` states as `IsValue`. A `Whole` has magnitude
/// at most 2^53. A `Frac(a, b)` is the quotient a / b of two 32-bit numbers that isn't whole, with b
/// above 0; it isn't reduced.
#[derive(Clone, Copy, PartialEq, Eq, Debug)]
pub enum JsValue {
    Whole(i64),
    Frac(i64, i64),
    NegZero,
    NaN,
    PosInf,
    NegInf,
    Bool(bool),
    Undef,
}

/// An operator of two operands. `Sar` is `>>`, and `Shr` is `>>>`.
#[derive(Clone, Copy, PartialEq, Eq, Debug)]
pub enum JsOp {
    Add,
    Sub,
    Mul,
    Div,
    Rem,
    Or,
    And,
    Xor,
    Shl,
    Sar,
    Shr,
    Lt,
    Le,
    Gt,
    Ge,
    Eq,
    Ne,
}

/// A prefix operator: `-`, `~`, `!` and `+`.
#[derive(Clone, Copy, PartialEq, Eq, Debug)]
pub enum JsUnary {
    Neg,
    BitNot,
    Not,
    Plus,
}
