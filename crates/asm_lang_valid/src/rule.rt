//! The rules that a module may break.

/// A rule of the names, the types or the limits of asm.js.
#[derive(Clone, Copy, PartialEq, Eq, Debug)]
pub enum Rule {
    /// A name is declared twice, an export key repeated, or a foreign member imported both as a value and as a function.
    NameTaken,
    /// A declared name is `arguments` or `eval`; a foreign member or an export key is `__proto__`.
    ForbiddenName,
    /// A name that is used isn't declared.
    UnknownName,
    /// A name is declared as another kind than its place needs.
    WrongKind,
    /// A literal isn't in [-2^31, 2^32).
    LiteralRange,
    /// A use of a double, or of what is accepted only unused; a declaration of another member of the standard library.
    OutsideInteger,
    /// Operand types have no row; a condition, a subject or an assigned value has a wrong type.
    Operand,
    /// Number or type of arguments, the result's form, or a call where no call may stand.
    CallShape,
    /// The index of a view of bytes that is no literal and no shift has a type not below signed or unsigned.
    BareByteIndex,
    /// An index isn't a shift by the size of the view's elements, or a literal index is too large.
    ViewShift,
    /// A table's length is no power of two, or its members have different types.
    TableSize,
    /// The index of a table call isn't masked by the table's length less one.
    TableMask,
    /// A return disagrees with its function, or its expression isn't below signed.
    ReturnKind,
    /// A break, a continue or a label breaks its rule.
    Label,
    /// A case value is out of range or repeated, or the values span 2^31 or more.
    SwitchCases,
    /// A chain of `+` and `-` has more than 2^20 operators.
    ChainLong,
    /// A count is above a limit of this product.
    PastLimit,
}

/// A rule that a node breaks.
#[derive(Clone, Copy, PartialEq, Eq, Debug)]
pub struct Met {
    pub rule: Rule,
    /// Nodes are numbered in text order, a whole before its parts; the module is node 0.
    pub node: u64,
}
