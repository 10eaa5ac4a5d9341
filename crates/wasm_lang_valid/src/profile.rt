//! Valid modules that aren't taken, since they lie beyond what is run or translated.
ghost use Rattle.std.specs.Prelude.{◌≡◌};
ghost use Rattle.wasm_lang_valid.specs.Rows as rows;

/// Why a valid module isn't taken. The variants stand in the order of their printed numbers: 14 to 20, then 22 to 24.
#[derive(Clone, Copy, PartialEq, Eq, Debug)]
pub enum Beyond {
    /// A table is imported.
    ImportedTable,
    /// A mutable global is imported.
    MutableImport,
    /// A global of 64 bits, or a function `env` `$high` with a result of 64 bits, is imported.
    WideImport,
    /// A segment's offset is a global.
    OffsetFromImport,
    /// A segment passes the minimum of the table or the memory.
    SegmentOutside,
    /// The memory's minimum is above 4,096 pages.
    MemoryLarge,
    /// A body has more than 900 nested levels.
    Levels,
    /// One module and field is imported as a function and as a global.
    MixedImport,
    /// Another count passes its limit.
    Size,
    /// A body multiplies or divides words of 64 bits.
    WideMulDiv,
}

/// The printed number of a row, 14 to 24.
pub fn beyond_number(row: Beyond) -> u8
    ensures { result ≡ rows.beyond_number row }
{
    match row {
        Beyond::ImportedTable => 14,
        Beyond::MutableImport => 15,
        Beyond::WideImport => 16,
        Beyond::OffsetFromImport => 17,
        Beyond::SegmentOutside => 18,
        Beyond::MemoryLarge => 19,
        Beyond::Levels => 20,
        Beyond::MixedImport => 22,
        Beyond::Size => 23,
        Beyond::WideMulDiv => 24,
    }
}

/// A valid module that isn't taken: why, and the number of an import, a segment or a function, or a count.
#[derive(Clone, Copy, PartialEq, Eq, Debug)]
pub struct Outside {
    pub row: Beyond,
    pub value: usize,
}
