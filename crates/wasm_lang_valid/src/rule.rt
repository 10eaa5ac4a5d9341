//! The rules of validity, and how a block is opened.
ghost use Rattle.std.specs.Prelude.{◌≡◌};
ghost use Rattle.wasm_lang_valid.specs.Rules.{number};

/// How a block was opened: so that a branch to its label leaves it, so that a branch comes back to its
/// start, or as the first arm of an `if`, which an `else` may follow.
#[derive(Clone, Copy, PartialEq, Eq, Debug)]
pub enum Opening {
    Straight,
    Back,
    FirstArm,
}

/// A rule of validity. The variants after the first stand in the order of their printed numbers, 1 to 21.
/// Where an instruction breaks several, the one of the least number counts.
#[derive(Clone, Copy, PartialEq, Eq, Debug)]
pub enum Rule {
    /// No rule: an instruction stands where no block is open, or an `else` outside the first arm of an
    /// `if`. This can't be in an expression.
    Nesting,
    /// A type's number doesn't exist.
    NoType,
    /// A function's number doesn't exist.
    NoFunction,
    /// A table's number doesn't exist.
    NoTable,
    /// A memory's number doesn't exist.
    NoMemory,
    /// A global's number doesn't exist.
    NoGlobal,
    /// A local's number doesn't exist.
    NoLocal,
    /// A label's number doesn't exist.
    NoLabel,
    /// An operand has another type.
    OtherType,
    /// An operand is missing.
    MissingOperand,
    /// Operands are left at a block's end.
    OperandsLeft,
    /// An alignment is above the natural one.
    Alignment,
    /// A constant global is set.
    ConstantGlobal,
    /// An initialiser or an offset isn't one constant or one imported constant of the type that is needed.
    Initializer,
    /// A minimum is above its maximum, or pages are above 65,536.
    Size,
    /// There is a second memory.
    SecondMemory,
    /// There is a second table.
    SecondTable,
    /// The name of an export is repeated.
    RepeatedName,
    /// The start function takes or gives something.
    StartType,
    /// The labels of a `br_table` differ in what they carry.
    LabelsDiffer,
    /// An `if` with a result has no `else`.
    IfWithoutElse,
    /// A function type has two results or more.
    TwoResults,
}

/// The printed number of a rule of validity, 1 to 21, and 0 for marks that do not nest, which no read module has.
pub fn rule_number(rule: Rule) -> u8
    ensures { result ≡ number rule }
{
    match rule {
        Rule::Nesting => 0,
        Rule::NoType => 1,
        Rule::NoFunction => 2,
        Rule::NoTable => 3,
        Rule::NoMemory => 4,
        Rule::NoGlobal => 5,
        Rule::NoLocal => 6,
        Rule::NoLabel => 7,
        Rule::OtherType => 8,
        Rule::MissingOperand => 9,
        Rule::OperandsLeft => 10,
        Rule::Alignment => 11,
        Rule::ConstantGlobal => 12,
        Rule::Initializer => 13,
        Rule::Size => 14,
        Rule::SecondMemory => 15,
        Rule::SecondTable => 16,
        Rule::RepeatedName => 17,
        Rule::StartType => 18,
        Rule::LabelsDiffer => 19,
        Rule::IfWithoutElse => 20,
        Rule::TwoResults => 21,
    }
}
