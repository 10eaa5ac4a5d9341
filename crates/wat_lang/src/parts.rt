//! What the parts of a text are, and the rules of the grammar.

/// The spaces of ids (section 6.3.5), and those of the ids of segments.
#[derive(Clone, Copy, PartialEq, Eq, Debug)]
pub enum Space {
    Type,
    Func,
    Table,
    Memory,
    Global,
    Local,
    Label,
    Elem,
    Data,
}

/// The lists of value types at the head of a function, in their order.
#[derive(Clone, Copy, PartialEq, Eq, Debug)]
pub enum Part {
    Param,
    Result,
    Local,
}

/// The fields of a module, by their keywords.
#[derive(Clone, Copy, PartialEq, Eq, Debug)]
pub enum FieldKind {
    Type,
    Import,
    Func,
    Table,
    Memory,
    Global,
    Export,
    Start,
    Elem,
    Data,
}

/// The rules of the grammar. `specs/Grammar.antt` says what each may begin with, and what follows.
#[derive(Clone, Copy, Debug)]
pub enum Rule {
    Grammar,
    Name,
    Bound(Space),
    Fields,
    Field,
    Described,
    Exported,
    /// The lists from a part on, with locals or without.
    Heads(bool, Part),
    Head(bool, Part),
    Types(Part),
    More(Part),
    TableEnd,
    Maximum,
    Kind,
    Constant,
    Functions,
    Labels,
    Strings,
    FuncWord,
    Code,
    Label,
    BlockResult,
    Arms,
    Offset,
    Align,
}
