//! Names of what is written. Their spellings are those of the translation's definition.

/// What a numbered name is of.
#[derive(Clone, Copy, PartialEq, Eq, Debug)]
pub enum Numbered {
    /// The word, or the low word, of a local variable of the source.
    LocalLow,
    /// Its high word.
    LocalHigh,
    /// The operand above so many others: its word, or its low word.
    OperandLow,
    OperandHigh,
    GlobalLow,
    GlobalHigh,
    /// A function of the source, imported ones first.
    Function,
    /// What an imported function is imported as.
    Foreign,
    /// A table that is called through.
    Table,
    /// What stands for no entry in a table.
    NoEntry,
    /// What stands for an entry of another type.
    OtherEntry,
    /// The label of a block inside so many others.
    Label,
}

/// The names that each module has, and those that it has where they are used.
#[derive(Clone, Copy, PartialEq, Eq, Debug)]
pub enum Fixed {
    ViewOfBytes,
    ViewOfSignedBytes,
    ViewOfWords,
    Imul,
    Clz32,
    Trap,
    High,
    /// The high word that a helper hands out.
    SpareHigh,
    /// The high word of the last result of a function.
    ResultHigh,
    ShiftLeft,
    ShiftRightSigned,
    ShiftRight,
    RotateLeft,
    LeadingZeros,
    TrailingZeros,
    SetBits,
    DivideSigned,
    Divide,
    RemainderSigned,
    Remainder,
    Load32,
    Load64,
    Store32,
    Store64,
    Copy,
    Fill,
    DataWords,
    DataZeros,
    Init,
    LastHigh,
}

#[derive(Clone, Copy, PartialEq, Eq, Debug)]
pub enum Name {
    Counted(Numbered, u64),
    Always(Fixed),
}
