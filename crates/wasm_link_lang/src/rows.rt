//! Why a pair of modules isn't linked.
ghost use Rattle.std.specs.Prelude.{◌≡◌};
ghost use Rattle.wasm_link_lang.specs.Rows as printed;

/// Why a pair of valid modules isn't linked. The variants stand in the order of their printed numbers, from 1 on.
#[derive(Clone, Copy, PartialEq, Eq, Debug)]
pub enum LinkRow {
    /// A module has an imported table, an imported mutable global, an offset that is a global, a segment that passes the minimum of
    /// its table or memory, or a memory of more than 4,096 pages.
    Profile,
    /// A memory isn't the import `env` `memory`.
    MemoryName,
    /// The least stated maximum of the memories is below the greater minimum.
    MemoryLimits,
    /// The second module exports a function under a name under which the first exports one.
    ExportTaken,
    /// A bound import has another type than the function that it is bound to.
    OtherType,
    /// A bound import leads back to itself.
    Cycle,
    /// A sum of counts passes the limit of a reader, or a function with a call by a table entry has no room for one more local.
    Limit,
}

/// The printed number of a row, 1 to 7.
pub fn row_number(row: LinkRow) -> u8
    ensures { result ≡ printed.row_number row }
{
    match row {
        LinkRow::Profile => 1,
        LinkRow::MemoryName => 2,
        LinkRow::MemoryLimits => 3,
        LinkRow::ExportTaken => 4,
        LinkRow::OtherType => 5,
        LinkRow::Cycle => 6,
        LinkRow::Limit => 7,
    }
}

/// A pair that isn't linked: why, whether it is for the second module's sake, and the number of a row, a minimum, an export, an
/// import, a sum or a function.
#[derive(Clone, Copy, PartialEq, Eq, Debug)]
pub struct Refused {
    pub row: LinkRow,
    pub second: bool,
    pub value: u64,
}
