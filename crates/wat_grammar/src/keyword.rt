//! The words of the grammar.

ghost use Rattle.std.specs.Prelude.{◌≡◌};
ghost use Rattle.wat_grammar.specs.Keywords.{word_of};

/// A word that may stand at a place.
#[derive(Clone, Copy)]
pub enum Keyword {
    Module,
    Type,
    Import,
    Func,
    Table,
    Memory,
    Global,
    Export,
    Start,
    Elem,
    Data,
    Param,
    Result,
    Local,
    Mut,
    Funcref,
    Else,
    End,
    Const32,
    Const64,
    GlobalGet,
}

impl Keyword {
    /// Its bytes.
    pub fn text(self) -> &'static [u8]
        ensures { result.now ≡ word_of self }
    {
        match self {
            Keyword::Module => b"module",
            Keyword::Type => b"type",
            Keyword::Import => b"import",
            Keyword::Func => b"func",
            Keyword::Table => b"table",
            Keyword::Memory => b"memory",
            Keyword::Global => b"global",
            Keyword::Export => b"export",
            Keyword::Start => b"start",
            Keyword::Elem => b"elem",
            Keyword::Data => b"data",
            Keyword::Param => b"param",
            Keyword::Result => b"result",
            Keyword::Local => b"local",
            Keyword::Mut => b"mut",
            Keyword::Funcref => b"funcref",
            Keyword::Else => b"else",
            Keyword::End => b"end",
            Keyword::Const32 => b"i32.const",
            Keyword::Const64 => b"i64.const",
            Keyword::GlobalGet => b"global.get",
        }
    }
}
