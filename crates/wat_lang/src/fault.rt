//! Why a text says no module.
ghost use Rattle.std.specs.Prelude.{◌≡◌};
ghost use Rattle.wat_lang.specs.Rows as rows;

/// Why a text says no module. The variants stand in the order of their printed numbers, 1 to 10.
#[derive(Clone, Copy, PartialEq, Eq, Debug)]
pub enum Row {
    /// A byte begins no token and no gap, or a string or a comment isn't closed.
    Token,
    /// No module begins with the tokens up to this one.
    Grammar,
    /// A number is out of its range, or an alignment is no power of two.
    Number,
    /// An id is bound twice in its space.
    IdTaken,
    /// An id isn't bound.
    IdUnknown,
    /// A function's parameters and results aren't those of its type, or there is no such type.
    TypeUse,
    /// An import after what is defined, or a second start.
    Order,
    /// A count passes a limit of the reader.
    Limit,
    /// A word of the floats, or `memory.grow`.
    OutsideInteger,
    /// A name isn't UTF-8.
    Utf8,
}

/// The printed number of a row, 1 to 10.
pub fn row_number(row: Row) -> u8
    ensures { result ≡ rows.row_number row }
{
    match row {
        Row::Token => 1,
        Row::Grammar => 2,
        Row::Number => 3,
        Row::IdTaken => 4,
        Row::IdUnknown => 5,
        Row::TypeUse => 6,
        Row::Order => 7,
        Row::Limit => 8,
        Row::OutsideInteger => 9,
        Row::Utf8 => 10,
    }
}
