//! Why bytes can't be read as a module.
ghost use Rattle.std.specs.Prelude.{◌≡◌};
ghost use Rattle.wasm_lang.specs.Rows as rows;

/// Why a field can't be read. The variants stand in the order of their printed numbers, 1 to 12.
#[derive(Clone, Copy, PartialEq, Eq, Debug)]
pub enum Row {
    /// A byte of the first four differs.
    Magic,
    /// A byte of the version differs.
    Version,
    /// The input ends in the header, in a section's id or size, or before a section's stated end.
    Truncated,
    /// A number is too long, or its unused bits are wrong.
    Leb,
    /// A section is repeated or out of order.
    SectionOrder,
    /// A field passes the end of its section or body, or bytes are left there.
    SectionSize,
    /// A byte isn't one of those for its field.
    UnknownByte,
    /// A name isn't UTF-8.
    Utf8,
    /// Two sections that have to have equal counts differ.
    Counts,
    /// A float type or a float instruction.
    Float,
    /// The instruction `memory.grow`.
    MemoryGrow,
    /// A count passes a limit of the reader.
    Limit,
}

/// The printed number of a row, 1 to 12.
pub fn row_number(row: Row) -> u8
    ensures { result ≡ rows.row_number row }
{
    match row {
        Row::Magic => 1,
        Row::Version => 2,
        Row::Truncated => 3,
        Row::Leb => 4,
        Row::SectionOrder => 5,
        Row::SectionSize => 6,
        Row::UnknownByte => 7,
        Row::Utf8 => 8,
        Row::Counts => 9,
        Row::Float => 10,
        Row::MemoryGrow => 11,
        Row::Limit => 12,
    }
}

/// The first field that can't be read: why, and its place in the input.
#[derive(Clone, Copy, PartialEq, Eq, Debug)]
pub struct Fault {
    pub row: Row,
    pub at: usize,
}

/// Why a number can't be read: whatever follows, no legal one begins there, or the bytes end in it.
#[derive(Clone, Copy, PartialEq, Eq, Debug)]
pub enum NumberFault {
    Illegal,
    Ends,
}
