//! What a name may stand for.

/// The elements of an integer view.
#[derive(Clone, Copy, PartialEq, Eq, Debug)]
pub enum Element {
    Int8,
    Uint8,
    Int16,
    Uint16,
    Int32,
    Uint32,
}

/// A function of the standard library.
#[derive(Clone, Copy, PartialEq, Eq, Debug)]
pub enum Builtin {
    Imul,
    Clz32,
}
