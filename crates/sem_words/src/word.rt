//! Machine words and the operators of WebAssembly on them.
ghost use Rattle.std.specs.Prelude.{◌≡◌};
ghost use Rattle.sem_words.specs.Words.{trap_code};

/// A machine word of 32 or 64 bits, as its unsigned number.
#[derive(Clone, Copy, PartialEq, Eq, Debug)]
pub enum Word {
    W32(u32),
    W64(u64),
}

/// An operator of two words (WebAssembly Core 1.0, section 2.4.1, `ibinop`).
#[derive(Clone, Copy, PartialEq, Eq, Debug)]
pub enum Bin {
    Add,
    Sub,
    Mul,
    DivS,
    DivU,
    RemS,
    RemU,
    And,
    Or,
    Xor,
    Shl,
    ShrS,
    ShrU,
    Rotl,
    Rotr,
}

/// An operator of one word (WebAssembly Core 1.0, section 2.4.1, `iunop`).
#[derive(Clone, Copy, PartialEq, Eq, Debug)]
pub enum Un {
    Clz,
    Ctz,
    Popcnt,
}

/// A comparison of two words (WebAssembly Core 1.0, section 2.4.1, `irelop`).
#[derive(Clone, Copy, PartialEq, Eq, Debug)]
pub enum Rel {
    Eq,
    Ne,
    LtS,
    LtU,
    GtS,
    GtU,
    LeS,
    LeU,
    GeS,
    GeU,
}

/// Why a run of WebAssembly stopped (WebAssembly Core 1.0, section 4.4).
#[derive(Clone, Copy, PartialEq, Eq, Debug)]
pub enum TrapKind {
    /// `unreachable` was reached.
    Unreachable,
    /// An access passes the end of the memory.
    Memory,
    /// A divisor is zero.
    ZeroDivisor,
    /// A signed quotient doesn't fit.
    Overflow,
    /// A table entry is outside or empty.
    TableEntry,
    /// A table entry has another type.
    OtherType,
    /// A segment passes the end of the table or memory.
    Segment,
}

impl TrapKind {
    /// The number that is printed: 1 to 7, in the order of the variants.
    pub fn code(self) -> u32
        ensures { result ≡ trap_code self }
    {
        match self {
            TrapKind::Unreachable => 1,
            TrapKind::Memory => 2,
            TrapKind::ZeroDivisor => 3,
            TrapKind::Overflow => 4,
            TrapKind::TableEntry => 5,
            TrapKind::OtherType => 6,
            TrapKind::Segment => 7,
        }
    }
}
