//! Types of values, limits, and what is imported and exported.

/// The type of a value (section 2.3.1), without the two float types.
#[derive(Clone, Copy, PartialEq, Eq, Debug)]
pub enum ValType {
    I32,
    I64,
}

/// The size of a table, in entries, or of a memory, in pages of 65,536 bytes (section 2.3.4).
#[derive(Clone, Copy, PartialEq, Eq, Debug)]
pub struct Limits {
    pub min: u32,
    pub max: Option<u32>,
}

/// The type of a global (section 2.3.7).
#[derive(Clone, Copy, PartialEq, Eq, Debug)]
pub struct GlobalType {
    pub kind: ValType,
    pub mutable: bool,
}

/// What is imported (section 2.5.11): a function, by the number of its type, a table, a memory or a global.
#[derive(Clone, Copy, PartialEq, Eq, Debug)]
pub enum ImportKind {
    Func(u32),
    Table(Limits),
    Memory(Limits),
    Global(GlobalType),
}

/// What is exported (section 2.5.10): a function, table, memory or global, by its number.
#[derive(Clone, Copy, PartialEq, Eq, Debug)]
pub enum ExportKind {
    Func(u32),
    Table(u32),
    Memory(u32),
    Global(u32),
}

/// The form of a load or a store (section 2.4.4): whether the operand has 64 bits, how many bytes of the
/// memory are read or written, and whether a load extends them with their sign. A load of all bytes of
/// its type, and every store, isn't `signed`.
#[derive(Clone, Copy, PartialEq, Eq, Debug)]
pub struct MemOp {
    pub wide: bool,
    pub size: u32,
    pub signed: bool,
}
