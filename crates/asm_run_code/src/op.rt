//! The operations of flat code.

use heap_lang::ViewKind;

/// What is computed of two words of 32 bits.
#[derive(Clone, Copy)]
pub enum Operator {
    Add,
    Sub,
    Mul,
    And,
    Or,
    Xor,
    Shl,
    ShrS,
    ShrU,
    /// Quotients and rests of signed words, and of unsigned ones; 0 where the divisor is 0.
    QuotientS,
    QuotientU,
    RestS,
    RestU,
    /// Comparisons give 1 or 0.
    Eq,
    Ne,
    LtS,
    LtU,
    LeS,
    LeU,
    GtS,
    GtU,
    GeS,
    GeU,
}

/// An operation. `to`, `from`, `left`, `right`, `index`, `slot` and `first` are slots of the function that runs. An address is
/// how many operations stand from there to the function's end.
#[derive(Clone, Copy)]
pub enum Op {
    Number {
        to: u32,
        word: u32,
    },
    Copy {
        to: u32,
        from: u32,
    },
    ReadGlobal {
        to: u32,
        global: u32,
    },
    WriteGlobal {
        global: u32,
        from: u32,
    },
    Apply {
        operator: Operator,
        to: u32,
        left: u32,
        right: u32,
    },
    ApplyNumber {
        operator: Operator,
        to: u32,
        left: u32,
        word: u32,
    },
    Negate {
        to: u32,
        from: u32,
    },
    Complement {
        to: u32,
        from: u32,
    },
    Zeros {
        to: u32,
        from: u32,
    },
    /// The element of a view at an index, which is read as unsigned.
    ReadElement {
        kind: ViewKind,
        to: u32,
        index: u32,
    },
    WriteElement {
        kind: ViewKind,
        index: u32,
        from: u32,
    },
    Go {
        at: u32,
    },
    /// Goes there where the slot holds 0.
    Unless {
        slot: u32,
        at: u32,
    },
    /// Goes there where the slot holds the word.
    Case {
        slot: u32,
        word: u32,
        at: u32,
    },
    /// Passes over as many of the next `count` operations as the slot's word less `low`, or over all of them.
    Choose {
        slot: u32,
        low: u32,
        count: u32,
    },
    /// Takes a unit, and writes the address that follows into the slot.
    Turn {
        to: u32,
    },
    /// Takes a unit, and goes to the address in the slot.
    Again {
        slot: u32,
    },
    /// Takes a unit, and calls a function with the arguments from a slot on. What it gives comes into that slot.
    Call {
        function: u32,
        first: u32,
    },
    /// The same of the function that a table has at the index in a slot.
    CallEntry {
        table: u32,
        index: u32,
        first: u32,
    },
    /// Calls a foreign member, by the number of its declaration.
    CallImport {
        member: u32,
        count: u32,
        first: u32,
    },
    /// Ends the function, with what the slot holds.
    Give {
        from: u32,
    },
}
